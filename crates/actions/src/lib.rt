// The twenty kinds of action: their numbers, their bodies, where their counts stand, and document 01's table of what each names, needs and
// does. And the reader of one action's record.
#![tactic(auto)]

ghost use Rattle.std.specs.Prelude.{◌≡◌, ◌<◌, ◌*◌, length};
ghost use Rattle.actions.specs.Kinds.{number_of, kinds, index_of, cell_of};
ghost use Rattle.actions.specs.Table.{place_of, own_of, knows_by, may_go_by, need_of, every_of, does_of};
ghost use Rattle.actions.specs.Records.{body_of, body_table, kind_from, read_at};

use answers::Refusal;

// In document 01's order and words, each with its number.
#[derive(Clone, Copy, Debug, PartialEq, Eq)]
pub enum Kind {
    Output = 16,
    PacketSent = 17,
    PacketDelivered = 18,
    AckSent = 19,
    AckDelivered = 20,
    Ok = 21,
    SubtreeOkSent = 22,
    SubtreeOkDelivered = 23,
    ClusterOk = 24,
    DownSent = 25,
    DownDelivered = 26,
    PreferredSent = 27,
    PreferredDelivered = 28,
    UpSent = 29,
    UpDelivered = 30,
    ClusterGo = 31,
    SubtreeGoSent = 32,
    SubtreeGoDelivered = 33,
    Go = 34,
    Input = 35,
}

// The number of the first kind: the tables are indexed by kind minus this.
const FIRST: u8 = 16;

// A table of constants, as the format has it: "twenty action kinds with the body length of each fixed: one or two node numbers"
const BODIES: [u8; 20] = [1, 2, 2, 2, 2, 1, 1, 1, 1, 1, 1, 2, 2, 1, 1, 1, 1, 1, 1, 1];

impl TryFrom<u8> for Kind {
    type Error = Refusal;

    ghost try_from_gives = { λ n r. r ≡ kind_from n };

    #[tactic(auto, using(laws::proofs::Choice::picks), unfolding(crate::specs::Records::kind_from, crate::specs::Kinds::kind_at))]
    fn try_from(number: u8) -> Result<Self, Refusal> {
        match number {
            16 => Ok(Kind::Output),
            17 => Ok(Kind::PacketSent),
            18 => Ok(Kind::PacketDelivered),
            19 => Ok(Kind::AckSent),
            20 => Ok(Kind::AckDelivered),
            21 => Ok(Kind::Ok),
            22 => Ok(Kind::SubtreeOkSent),
            23 => Ok(Kind::SubtreeOkDelivered),
            24 => Ok(Kind::ClusterOk),
            25 => Ok(Kind::DownSent),
            26 => Ok(Kind::DownDelivered),
            27 => Ok(Kind::PreferredSent),
            28 => Ok(Kind::PreferredDelivered),
            29 => Ok(Kind::UpSent),
            30 => Ok(Kind::UpDelivered),
            31 => Ok(Kind::ClusterGo),
            32 => Ok(Kind::SubtreeGoSent),
            33 => Ok(Kind::SubtreeGoDelivered),
            34 => Ok(Kind::Go),
            35 => Ok(Kind::Input),
            _ => Err(Refusal::ActionUnknown),
        }
    }
}

#[tactic(auto, unfolding(crate::specs::Kinds::number_of))]
pub fn number(kind: Kind) -> u8
    ensures { result ≡ number_of kind }
{
    kind as u8
}

// The kind's place in the tables.
#[tactic(auto, using(crate::proofs::Numbers::placed), unfolding(crate::specs::Kinds::index_of))]
pub fn index(kind: Kind) -> usize
    ensures is { result ≡ index_of kind }
    ensures inside { result < length kinds }
{
    (number(kind) - FIRST) as usize
}

// One count: of a kind, at a node or along a direction.
#[derive(Clone, Copy, Debug, PartialEq, Eq)]
pub struct Counter(pub Kind, pub u8);

// Where a count stands: each kind has a row of 256.
#[tactic(auto, unfolding(crate::specs::Kinds::cell_of))]
pub fn cell(c: Counter) -> usize
    ensures is { result ≡ cell_of c }
    ensures inside { result < length kinds * 256 }
{
    index(c.0) * 256 + c.1 as usize
}

// What a body has to name, by the refusals 13 and 14.
#[derive(Clone, Copy, Debug, PartialEq, Eq)]
pub enum Place {
    Node,
    Link,
    PreferredLink,
    Child,
    Root,
}

// No code calls this one, `need_of` or `every_of`: they are document 01's table in code, and docs/RULES.md names them beside it.
#[tactic(auto, unfolding(crate::specs::Table::place_of))]
pub fn place_of(kind: Kind) -> Place
    ensures { result ≡ place_of kind }
{
    match kind {
        Kind::Output | Kind::Ok | Kind::Go | Kind::Input => Place::Node,
        Kind::PacketSent | Kind::PacketDelivered | Kind::AckSent | Kind::AckDelivered =>
            Place::Link,
        Kind::PreferredSent | Kind::PreferredDelivered => Place::PreferredLink,
        Kind::SubtreeOkSent
        | Kind::SubtreeOkDelivered
        | Kind::DownSent
        | Kind::DownDelivered
        | Kind::UpSent
        | Kind::UpDelivered
        | Kind::SubtreeGoSent
        | Kind::SubtreeGoDelivered => Place::Child,
        Kind::ClusterOk | Kind::ClusterGo => Place::Root,
    }
}

// What an action finds around its nodes p and q: the directions from p to q and back, p's parent, and whether p and that parent is a root.
#[derive(Clone, Copy, Debug, PartialEq, Eq)]
pub struct Around {
    pub lane: u8,
    pub back: u8,
    pub parent: u8,
    pub root: bool,
    pub rooted: bool,
}

// The action's own count: along the direction from p to q where it names a link, p's where not.
#[tactic(auto, unfolding(crate::specs::Table::own_of))]
pub fn own_of(place: Place, kind: Kind, p: u8, lane: u8) -> Counter
    ensures { result ≡ own_of place kind p lane }
{
    match place {
        Place::Link | Place::PreferredLink => Counter(kind, lane),
        Place::Node | Place::Child | Place::Root => Counter(kind, p),
    }
}

// "A root knows by 24, another node by 26."
#[tactic(auto, using(laws::proofs::Choice::picks), unfolding(crate::specs::Table::knows_by))]
pub fn knows(root: bool, p: u8) -> Counter
    ensures { result ≡ knows_by root p }
{
    if root {
        Counter(Kind::ClusterOk, p)
    } else {
        Counter(Kind::DownDelivered, p)
    }
}

// "A root may go by 31, another by 33." Beside `knows`, and not one function with the two kinds as parameters: that would be no shorter, and each
// caller would have to name the kinds.
#[tactic(auto, using(laws::proofs::Choice::picks), unfolding(crate::specs::Table::may_go_by))]
pub fn may_go(root: bool, p: u8) -> Counter
    ensures { result ≡ may_go_by root p }
{
    if root {
        Counter(Kind::ClusterGo, p)
    } else {
        Counter(Kind::SubtreeGoDelivered, p)
    }
}

// The count that has to be above the action's own.
#[tactic(auto, unfolding(crate::specs::Table::need_of))]
pub fn need_of(kind: Kind, p: u8, a: Around) -> Counter
    ensures { result ≡ need_of kind p a }
{
    match kind {
        Kind::Output => Counter(Kind::Input, p),
        Kind::PacketSent | Kind::Ok => Counter(Kind::Output, p),
        Kind::PacketDelivered => Counter(Kind::PacketSent, a.lane),
        Kind::AckSent => Counter(Kind::PacketDelivered, a.back),
        Kind::AckDelivered => Counter(Kind::AckSent, a.lane),
        Kind::SubtreeOkSent | Kind::ClusterOk => Counter(Kind::Ok, p),
        Kind::SubtreeOkDelivered => Counter(Kind::SubtreeOkSent, p),
        Kind::DownSent => knows(a.rooted, a.parent),
        Kind::DownDelivered => Counter(Kind::DownSent, p),
        Kind::PreferredSent | Kind::UpSent | Kind::ClusterGo => knows(a.root, p),
        Kind::PreferredDelivered => Counter(Kind::PreferredSent, a.lane),
        Kind::UpDelivered => Counter(Kind::UpSent, p),
        Kind::SubtreeGoSent => may_go(a.rooted, a.parent),
        Kind::SubtreeGoDelivered => Counter(Kind::SubtreeGoSent, p),
        Kind::Go => may_go(a.root, p),
        Kind::Input => Counter(Kind::Go, p),
    }
}

// Whose counts besides have to be above the action's own: the word of each, delivered to p.
#[derive(Clone, Copy, Debug, PartialEq, Eq)]
pub enum Every {
    Nobody,
    Neighbour(Kind),
    Child(Kind),
    ChildAndPreferred(Kind, Kind),
}

#[tactic(auto, unfolding(crate::specs::Table::every_of))]
pub fn every_of(kind: Kind) -> Every
    ensures { result ≡ every_of kind }
{
    match kind {
        Kind::Ok => Every::Neighbour(Kind::AckDelivered),
        Kind::SubtreeOkSent | Kind::ClusterOk => Every::Child(Kind::SubtreeOkDelivered),
        Kind::UpSent | Kind::ClusterGo => Every::ChildAndPreferred(
            Kind::UpDelivered,
            Kind::PreferredDelivered,
        ),
        _ => Every::Nobody,
    }
}

// What an action asks of a queue and does besides counting.
#[derive(Clone, Copy, Debug, PartialEq, Eq)]
pub enum Does {
    Starts,
    Counts,
    SendsPacket,
    SendsAck,
    TakesPacket,
    TakesAck,
    Means,
}

#[tactic(auto, unfolding(crate::specs::Table::does_of))]
pub fn does_of(kind: Kind) -> Does
    ensures { result ≡ does_of kind }
{
    match kind {
        Kind::Output => Does::Starts,
        Kind::PacketSent => Does::SendsPacket,
        Kind::PacketDelivered => Does::TakesPacket,
        Kind::AckSent => Does::SendsAck,
        Kind::AckDelivered => Does::TakesAck,
        Kind::Input => Does::Means,
        _ => Does::Counts,
    }
}

// An action as a record has it: its kind, the nodes that its body names, and how many bytes it takes. Where a body names one node, q is p.
#[derive(Clone, Copy, Debug, PartialEq, Eq)]
pub struct Act {
    pub kind: Kind,
    pub p: u8,
    pub q: u8,
    pub width: usize,
}

// The table, for the limits of the counts: a row of a kind that names one node goes by nodes, any other by directions.
#[tactic(auto, unfolding(crate::specs::Records::body_table, crate::specs::Records::body_of, crate::specs::Records::names_of, crate::specs::Table::place_of, crate::specs::Kinds::kind_at, laws::specs::Below::list_below))]
pub fn bodies() -> [u8; 20]
    ensures { result ≡ body_table }
{
    BODIES
}

// How many bytes a kind's body has.
#[tactic(auto, unfolding(crate::specs::Kinds::index_of, crate::specs::Kinds::number_of, crate::specs::Records::body_of, crate::specs::Records::names_of, crate::specs::Table::place_of))]
fn body_of(kind: Kind) -> usize
    ensures is { result ≡ body_of kind }
    ensures nodes { (0 < result) × (result < 3) }
{
    BODIES[index(kind)] as usize
}

// The action at a place of the bytes, by the table of body lengths.
pub fn read(bytes: &[u8], at: usize) -> Result<Act, Refusal>
    ensures { result ≡ read_at bytes.now at }
{
    let number = *bytes.get(at).ok_or(Refusal::ActionCutShort)?;
    let kind = Kind::try_from(number)?;
    let body = body_of(kind);
    let q = *bytes.get(at + body).ok_or(Refusal::ActionCutShort)?;
    Ok(Act {
        kind,
        p: bytes[at + 1],
        q,
        width: body + 1,
    })
}
