// One call, made of both sides with the same bytes, network, state or buffer, and what comes back compared.
use compare::networks::plan_of;
use compare::states::{same_state, world_of};
use compare::tally::Tally;
use network::Network;
use second_plan::answers::Answer;
use second_plan::sheets::{Kind, World};
use synchronizer::{Done, Ran, State};

// An action in bytes; the last is not read where it has one number.
pub type Action = [u8; 3];

// The start state of a network.
pub fn try_start(tally: &mut Tally, net: &Network) -> State {
    let mut world = World::zeros();
    let ours = State::start(*net);
    let theirs = Answer::from(second::start(&plan_of(net), &mut world));
    tally.same_answer("start state's answer", ours.answer, theirs.number);
    same_state(tally, net, &ours.state, &world);
    ours.state
}

// A list of actions handed in with a state; what the bench makes of it.
pub fn try_list(tally: &mut Tally, net: &Network, state: &State, bytes: &[u8]) -> Ran {
    let mut world = world_of(net, state);
    let ours = state.run(*net, bytes);
    let theirs = Answer::from(second::run_actions(&plan_of(net), &mut world, bytes));
    tally.same_answer("list's answer", ours.answer, theirs.number);
    tally.same("list's place", ours.place, theirs.place);
    tally.same("list's number taken", ours.taken, theirs.taken);
    same_state(tally, net, &ours.state, &world);
    ours
}

// A single action handed in with a state.
pub fn try_act(tally: &mut Tally, net: &Network, state: &State, bytes: &[u8]) {
    let mut world = world_of(net, state);
    let ours = state.act(*net, bytes);
    let theirs = Answer::from(second::single_action(&plan_of(net), &mut world, bytes));
    tally.same_answer("action's answer", ours.answer, theirs.number);
    tally.same("action's place", ours.place, theirs.place);
    same_state(tally, net, &ours.state, &world);
}

// The bench's method of a kind. Those of nodes take the first number alone. The methods take state, network and numbers apart, and so does this.
fn method(kind: Kind, state: State, net: Network, p: u8, q: u8) -> Done {
    match kind {
        Kind::Output => state.output(net, p),
        Kind::PacketSent => state.packet_sent(net, p, q),
        Kind::PacketDelivered => state.packet_delivered(net, p, q),
        Kind::AckSent => state.ack_sent(net, p, q),
        Kind::AckDelivered => state.ack_delivered(net, p, q),
        Kind::NodeOk => state.ok(net, p),
        Kind::SubtreeOkSent => state.subtree_ok_sent(net, p),
        Kind::SubtreeOkDelivered => state.subtree_ok_delivered(net, p),
        Kind::ClusterOk => state.cluster_ok(net, p),
        Kind::DownSent => state.down_sent(net, p),
        Kind::DownDelivered => state.down_delivered(net, p),
        Kind::PreferredSent => state.preferred_sent(net, p, q),
        Kind::PreferredDelivered => state.preferred_delivered(net, p, q),
        Kind::UpSent => state.up_sent(net, p),
        Kind::UpDelivered => state.up_delivered(net, p),
        Kind::ClusterGo => state.cluster_go(net, p),
        Kind::SubtreeGoSent => state.subtree_go_sent(net, p),
        Kind::SubtreeGoDelivered => state.subtree_go_delivered(net, p),
        Kind::Go => state.go(net, p),
        Kind::Input => state.input(net, p),
    }
}

// The action's method on a state; nothing where no kind has the number.
pub fn try_method(tally: &mut Tally, net: &Network, state: &State, action: &Action) {
    let [number, p, q] = *action;
    let Ok(kind) = Kind::try_from(number) else {
        return;
    };
    let mut world = world_of(net, state);
    let ours = method(kind, *state, *net, p, q);
    let theirs = Answer::from(second::single_action(&plan_of(net), &mut world, action));
    tally.same_answer("method's answer", ours.answer, theirs.number);
    same_state(tally, net, &ours.state, &world);
}
