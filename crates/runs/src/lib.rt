// Runs in random delivery orders, from the start state or another, broken off or to the end; then what was taken as a list, whole and
// damaged; and single actions out of turn. What is proved of it is that every call is safe and ends.
#![tactic(auto)]

use calls::both::{Action, try_act, try_list, try_method, try_start};
use compare::networks::plan_of;
use compare::states::{Pairs, same_state, used_by, world_of};
use compare::tally::{Tally, Trials};
use draws::bytes::{ByteString, Bytes};
use draws::dice::Dice;
use network::Network;
use second_plan::answers::Answer;
use second_plan::rows::Plan;
use second_plan::sheets::{Kind, Sheet, World};
use synchronizer::State;

// Room for the actions of a run: three rounds, and none has more than 6,144 bytes.
const LIST: usize = 20480;

// How many actions the largest network has: fourteen kinds of 64 nodes, six of 256 directions.
const MOST_ACTIONS: usize = 2432;

// Every action of a network, in any order, in fixed memory. `Bytes` over any type would insert and remove too, which nothing here does.
#[derive(Drop)]
struct Actions {
    room: [Action; MOST_ACTIONS],
    count: usize,
}

impl Actions {
    fn of(net: &Network) -> Actions {
        let pairs = Pairs::of(net);
        let mut actions = Actions {
            room: [[0; 3]; MOST_ACTIONS],
            count: 0,
        };
        for kind in Kind::ALL {
            for x in 0..=u8::MAX {
                if usize::from(x) < used_by(net, Sheet::Count(kind)) {
                    actions.push(action_of(&pairs, kind, x));
                }
            }
        }
        actions
    }

    fn push(&mut self, action: Action) {
        if let Some(place) = self.room.get_mut(self.count) {
            *place = action;
            self.count += 1;
        }
    }

    fn shuffle(&mut self, dice: &mut Dice) {
        let count = self.count.min(MOST_ACTIONS);
        dice.shuffle(&mut self.room[..count]);
    }

    fn as_slice(&self) -> &[Action] {
        &self.room[..self.count.min(MOST_ACTIONS)]
    }
}

// The action of a kind at a node or a direction.
fn action_of(pairs: &Pairs, kind: Kind, x: u8) -> Action {
    let (p, q) = if kind.is_of_directions() {
        pairs.pair(usize::from(x))
    } else {
        (x, x)
    };
    [kind.number(), p, q]
}

// As many bytes of an action as are read of it.
fn read_of(action: &Action) -> &[u8] {
    match Kind::try_from(action[0]) {
        Ok(kind) if kind.is_of_directions() => action,
        _ => &action[..2],
    }
}

// A run of both sides on a network that 17 does not refuse: the bench's state, and the actions that it took.
#[derive(Drop)]
struct Walk {
    net: Network,
    plan: Plan,
    state: State,
    list: Bytes<LIST>,
}

impl Walk {
    fn new(net: &Network, state: &State) -> Walk {
        Walk {
            net: *net,
            plan: plan_of(net),
            state: *state,
            list: Bytes::new(),
        }
    }

    // One action of both sides.
    fn step(&mut self, tally: &mut Tally, world: &mut World, action: &Action) {
        let ours = self.state.act(self.net, action);
        let theirs = Answer::from(second::act(&self.plan, world, action, 0));
        tally.same_answer("action's answer", ours.answer, theirs.number);
        if ours.answer == 0 {
            self.list.extend(read_of(action));
        }
        self.state = ours.state;
    }

    // Every action in its order, and the states after it compared.
    fn sweep(&mut self, tally: &mut Tally, actions: &[Action]) {
        let mut world = world_of(&self.net, &self.state);
        for action in actions {
            self.step(tally, &mut world, action);
        }
        same_state(tally, &self.net, &self.state, &world);
    }

    // Sweeps in one order after another, until one takes nothing or so many are done.
    fn walk_on(&mut self, trials: &mut Trials, sweeps: usize) {
        let mut actions = Actions::of(&self.net);
        for _ in 0..sweeps {
            let taken = self.list.len();
            actions.shuffle(&mut trials.dice);
            self.sweep(&mut trials.tally, actions.as_slice());
            if self.list.len() == taken {
                return;
            }
        }
    }
}

// A kind, known or not, and two numbers, most of them of nodes.
pub fn any_action(dice: &mut Dice, nodes: usize) -> Action {
    let kind = dice.below(22) as u8 + 15;
    let most = if dice.once_in(6) { 256 } else { nodes.min(256) };
    [kind, dice.below(most) as u8, dice.below(most) as u8]
}

// The list with one damage after another.
fn try_damaged(trials: &mut Trials, net: &Network, state: &State, whole: &Bytes<LIST>) {
    let mut list = *whole;
    for _ in 0..3 {
        list.damage(&mut trials.dice);
        try_list(&mut trials.tally, net, state, list.as_slice());
    }
}

// Single actions, cut or not, from bytes and by their methods.
fn try_singles(trials: &mut Trials, net: &Network, state: &State) {
    for _ in 0..2 {
        let action = any_action(&mut trials.dice, net.nodes);
        let size = trials.dice.below(6).min(action.len());
        try_act(&mut trials.tally, net, state, &action[..size]);
        try_method(&mut trials.tally, net, state, &action);
    }
}

// So many sweeps from a state, what was taken as a list, whole and damaged, and single actions on the last state; that state.
pub fn try_run(trials: &mut Trials, net: &Network, state: &State, sweeps: usize) -> State {
    let mut walk = Walk::new(net, state);
    walk.walk_on(trials, sweeps);
    try_list(&mut trials.tally, net, state, walk.list.as_slice());
    try_damaged(trials, net, state, &walk.list);
    try_singles(trials, net, &walk.state);
    walk.state
}

// A complete run: its values are those of the lockstep table.
pub fn try_whole_run(trials: &mut Trials, net: &Network) {
    let state = try_start(&mut trials.tally, net);
    let last = try_run(trials, net, &state, 4096);
    let mut table = [0u16; 64];
    let _ = lockstep::table(*net, net.rounds, &mut table);
    // Each value alone, since of two lists only the first difference counts.
    for (value, wanted) in last.values.iter().zip(&table) {
        let (value, wanted) = (usize::from(*value), usize::from(*wanted));
        trials.tally.same("value after a whole run", value, wanted);
    }
}
