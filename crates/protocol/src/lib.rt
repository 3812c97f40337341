// The promises of routers that switch over, of packets meanwhile and of their end: the contract of each function is one of them.
#![tactic(auto)]

ghost use Rattle.protocol.specs.Packet.{ThreeRounds};
ghost use Rattle.protocol.specs.Order.{RuleKept, Waits, UntouchedSwitch, Afterwards, StaleIgnored};
ghost use Rattle.protocol.specs.Delivery.{Delivery, WithinLimit, RepairedOnce, CalmDelivery};
ghost use Rattle.protocol.specs.Costs.{OnceForAim, RepairCost, CostBefore, UntouchedCost, CostAfter};
ghost use Rattle.protocol.specs.Progress.{Progress, CalmAgain, CalmFirst, Bounded, CanEnd};
ghost use Rattle.protocol.specs.Playing.{PlayedOut, PlayedCalm};
ghost use Rattle.protocol.specs.Table.{Table};

pub fn three_rounds_holds()
    ensures { ThreeRounds }
{}

pub fn rule_kept_holds()
    ensures { RuleKept }
{}

pub fn waits_holds()
    ensures { Waits }
{}

pub fn untouched_switch_holds()
    ensures { UntouchedSwitch }
{}

pub fn afterwards_holds()
    ensures { Afterwards }
{}

pub fn stale_ignored_holds()
    ensures { StaleIgnored }
{}

pub fn delivery_holds()
    ensures { Delivery }
{}

pub fn within_limit_holds()
    ensures { WithinLimit }
{}

pub fn repaired_once_holds()
    ensures { RepairedOnce }
{}

pub fn calm_delivery_holds()
    ensures { CalmDelivery }
{}

pub fn once_for_aim_holds()
    ensures { OnceForAim }
{}

pub fn repair_cost_holds()
    ensures { RepairCost }
{}

pub fn cost_before_holds()
    ensures { CostBefore }
{}

pub fn untouched_cost_holds()
    ensures { UntouchedCost }
{}

pub fn cost_after_holds()
    ensures { CostAfter }
{}

pub fn progress_holds()
    ensures { Progress }
{}

pub fn calm_again_holds()
    ensures { CalmAgain }
{}

pub fn calm_first_holds()
    ensures { CalmFirst }
{}

pub fn bounded_holds()
    ensures { Bounded }
{}

pub fn can_end_holds()
    ensures { CanEnd }
{}

pub fn played_out_holds()
    ensures { PlayedOut }
{}

pub fn played_calm_holds()
    ensures { PlayedCalm }
{}

pub fn table_holds()
    ensures { Table }
{}
