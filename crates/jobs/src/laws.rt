// Laws above the definitions, for whoever builds on them.
ghost use Rattle.jobs.specs.Laws.{BlocksJoin, OneTop, JobsApart};

use families::Family;

// Computes nothing. Its contract states the laws of blocks, levels and root lists.
pub fn layout_laws<F: Family>()
    ensures blocks { BlocksJoin }
    ensures top { OneTop F.meaning }
    ensures apart { JobsApart F.meaning }
{}
