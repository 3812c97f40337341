// The theorems that the other crates rest on: the contract of each function is one of them.
#![tactic(auto)]

ghost use Rattle.theory.specs.RepairLaws.{Untouched, NotNearer, Either, OneEnd, LastClear, Repaired, NoRepair, SamePath, Reached};
ghost use Rattle.theory.specs.Worked.{Worked};
ghost use Rattle.theory.specs.Laws.{Least, Symmetric, Triangle, ZeroAtSelf, Falls, Lowest, NoHop, PathSteps, UsesSteps, Leads, NoNodeTwice, FewHops, Bounded, Piece};

pub fn least_holds()
    ensures { Least }
{}

pub fn symmetric_holds()
    ensures { Symmetric }
{}

pub fn triangle_holds()
    ensures { Triangle }
{}

pub fn zero_at_self_holds()
    ensures { ZeroAtSelf }
{}

pub fn falls_holds()
    ensures { Falls }
{}

pub fn lowest_holds()
    ensures { Lowest }
{}

pub fn no_hop_holds()
    ensures { NoHop }
{}

pub fn path_steps_holds()
    ensures { PathSteps }
{}

pub fn uses_steps_holds()
    ensures { UsesSteps }
{}

pub fn leads_holds()
    ensures { Leads }
{}

pub fn no_node_twice_holds()
    ensures { NoNodeTwice }
{}

pub fn few_hops_holds()
    ensures { FewHops }
{}

pub fn bounded_holds()
    ensures { Bounded }
{}

pub fn piece_holds()
    ensures { Piece }
{}

pub fn untouched_holds()
    ensures { Untouched }
{}

pub fn not_nearer_holds()
    ensures { NotNearer }
{}

pub fn either_holds()
    ensures { Either }
{}

pub fn one_end_holds()
    ensures { OneEnd }
{}

pub fn last_clear_holds()
    ensures { LastClear }
{}

pub fn repaired_holds()
    ensures { Repaired }
{}

pub fn no_repair_holds()
    ensures { NoRepair }
{}

pub fn same_path_holds()
    ensures { SamePath }
{}

pub fn reached_holds()
    ensures { Reached }
{}

pub fn worked_holds()
    ensures { Worked }
{}
