// What the law speaks of exists.
ghost use Rattle.exchange.specs.Samples.{RunExists};

// Computes nothing. Its contract states that a run with every kind of event exists, granted and refused, under every
// lawful family, key card and job.
pub fn run_exists()
    ensures { RunExists }
{}
