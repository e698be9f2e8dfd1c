// Laws above the definitions, for whoever builds on them.
ghost use Rattle.line.specs.Grants.{LinesLawful};
ghost use Rattle.line.specs.Laws.{WrittenRead, ReadWritten, AllRead, AllWritten, LinesExtend};

// Computes nothing. Its contract states the laws of commands and lines.
pub fn line_laws()
    ensures written { WrittenRead }
    ensures read { ReadWritten }
    ensures lists { AllRead }
    ensures lines { AllWritten }
    ensures extend { LinesExtend }
    ensures lawful { LinesLawful }
{}
