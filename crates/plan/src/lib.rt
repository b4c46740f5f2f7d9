// The plan reader: any bytes in, a plan's length and network out, or why they are refused and where. "Plan checks, record by record from the
// start: 1, 2, 3, 4, 5 .. Then over the whole plan, in this order: 6, 7, 8, 9, 10." (document 01)
#![tactic(auto)]

ghost use Rattle.std.specs.Prelude.{◌≡◌};
ghost use Rattle.laws.specs.Lists.{Bytes};
ghost use Rattle.network.specs.Zeros.{zero_network};
ghost use Rattle.records.specs.Planned.{planned_of, handed_of};
ghost use Rattle.plan.specs.Checks.{checks_of, plan_of};

use answers::{Refusal, Refused, none_at};
use clusters::{first_inside, first_not_one};
use joined::first_unjoined;
use network::{Network, zeros};
use records::{Plan, read_lists};
use tree::{first_lost, first_untied};

// Five walks, each for the lowest node or the first link that breaks its rule. What was lent stays zeros unless all five find none.
fn check_whole(plan: Plan, network: &mut Network) -> Result<usize, Refused>
    requires { network.old ≡ zero_network }
    ensures { handed_of result network.new ≡ checks_of plan.network plan.taken }
{
    let net = plan.network;
    none_at(first_untied(net), Refusal::Untied)?;
    none_at(first_lost(net), Refusal::Lost)?;
    none_at(first_inside(net), Refusal::Inside)?;
    none_at(first_not_one(net), Refusal::NotOne)?;
    none_at(first_unjoined(net), Refusal::Unjoined)?;
    *network = net;
    Ok(plan.taken)
}

// Any bytes: how many of them the plan takes and its network with the sets filled; or 1 to 10, and document 01's place for it.
pub fn read_plan(bytes: &[u8]) -> Result<Plan, Refused>
    ensures answer { planned_of result ≡ plan_of bytes.now }
    ensures small { Bytes bytes.now }
{
    let mut network = zeros();
    let taken = read_plan_into(bytes, &mut network)?;
    Ok(Plan { taken, network })
}

// The same into a network that is lent: "A refused plan hands back a network of zeros".
pub fn read_plan_into(bytes: &[u8], network: &mut Network) -> Result<usize, Refused>
    ensures answer { handed_of result network.new ≡ plan_of bytes.now }
    ensures small { Bytes bytes.now }
{
    *network = zeros();
    let lists = read_lists(bytes)?;
    let plan = Plan {
        network: lists.network.with_sets(),
        ..lists
    };
    check_whole(plan, network)
}
