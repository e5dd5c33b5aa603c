// Taking one packet from two links: the table LINK-308 .. LINK-0 over two lent slices, a place in each, a list of callers and a state.
#![tactic(auto)]

ghost use Rattle.std.specs.Prelude.{◌≡◌, true, false, List, ℕ, ◌+◌, ◌^◌, ◌≤◌, ◌<◌, length};
ghost use Rattle.field.specs.Row.{width_of};
ghost use Rattle.packet.specs.Sizes.{packet_header_size, least_length, packet_size};
ghost use Rattle.packet_types.specs.Types.{au1_begins, caller_of, called_of, in_class_d};
ghost use Rattle.links.specs.Taken.{fresh_state, empty_part, link_down, dropped, handed_up};
ghost use Rattle.links.specs.Place.{part_place, user_data_place};
ghost use Rattle.links.specs.Callers.{listed, not_allowed};
ghost use Rattle.links.specs.Table.{length_fault, judgeable, held, both_down, opening_of, not_opening, not_later, too_far};
ghost use Rattle.links.specs.Table.{class_d_rows, rows_of, taken_of, part_of, user_data_of};

use number::BEHIND_FROM;
use packet::Header;
use packet_types::{AU1, AU2};

// The links that are up, the role, the setting, whether the first packet is still awaited, and the number last handed up.
// Stays: `first` beside `last`, and no Option: the theorem `LooseHandsUp` (link_promises/specs/Promises) reads both.
#[derive(Clone, Copy)]
pub struct State {
    pub normal_up: bool,
    pub redundant_up: bool,
    pub responder: bool,
    pub strict: bool,
    pub first: bool,
    pub last: u16,
}

// LINK-USED: what one step answers, the link that it names and how many of its bytes are used; of what is handed up its place in
// that link's slice, and its fields.
// Stays: the answer as 01's number, with the fields beside it: the theorems `AnswersOfTheTable` and `CountsItsUserData`
// (link_promises/specs/Promises) read them.
#[derive(Clone, Copy)]
pub struct Taken {
    pub answer: u16,
    pub normal: bool,
    pub used: usize,
    pub start: usize,
    pub size: usize,
    pub version: u8,
    pub application: u8,
    pub kind: u8,
    pub number: u16,
    pub state: State,
}

// LINK-FRESH: both links up, and the first packet awaited.
pub fn fresh_state(responder: bool, strict: bool) -> State
    ensures { result ≡ fresh_state responder strict }
{
    State {
        normal_up: true,
        redundant_up: true,
        responder,
        strict,
        first: true,
        last: 0,
    }
}

// LINK-EMPTY: no part and no field of a packet.
fn empty_part(answer: u16, normal: bool, used: usize, state: State) -> Taken
    ensures { result ≡ empty_part answer normal used state }
{
    Taken {
        answer,
        normal,
        used,
        start: 0,
        size: 0,
        version: 0,
        application: 0,
        kind: 0,
        number: 0,
        state,
    }
}

// LINK-302, LINK-303, LINK-304: the link goes down; LINK-UNUSED.
fn link_down(answer: u16, normal: bool, state: State) -> Taken
    ensures { result ≡ link_down answer normal state }
{
    let after = if normal {
        State {
            normal_up: false,
            ..state
        }
    } else {
        State {
            redundant_up: false,
            ..state
        }
    };
    empty_part(answer, normal, 0, after)
}

// LINK-302: under the least length, or over the most.
#[tactic(auto, unfolding(crate::specs::Table::length_fault))]
fn length_fault(length: u16) -> bool
    ensures { result ≡ length_fault length }
{
    !(packet::LEAST_LENGTH..=packet::MOST_LENGTH).contains(&length)
}

// LINK-LOOK: a length fault that can be judged, or a whole packet; LINK-PAST: nothing past the end.
#[tactic(auto, unfolding(crate::specs::Table::judgeable))]
fn judgeable(s: &[u8], at: usize) -> bool
    ensures { result ≡ judgeable s.now at }
{
    let left = s.len().saturating_sub(at);
    // Stays: a way out, since the length is read only behind it.
    if left < packet::LENGTH_SIZE {
        return false;
    }
    let length: u16 = field::number_at(s, at);
    length_fault(length) || usize::from(length) + packet::LENGTH_SIZE <= left
}

// LINK-301: such bytes on a link that is up.
fn held(up: bool, s: &[u8], at: usize) -> bool
    ensures { result ≡ held up s.now at }
{
    up && judgeable(s, at)
}

// LINK-308: no link is up.
#[tactic(auto, unfolding(crate::specs::Table::both_down))]
fn both_down(state: State) -> bool
    ensures { result ≡ both_down state }
{
    !state.normal_up && !state.redundant_up
}

// LINK-309: what opens a connection, AU1 to the responder, AU2 to the initiator.
// Stays: a packet type as its number in the table of types, held against the byte that was read (FORM-6).
fn opening_of(responder: bool) -> u8
    ensures { result ≡ opening_of responder }
{
    if responder { AU1 } else { AU2 }
}

// LINK-309: no acceptable opening for the role.
#[tactic(auto, unfolding(crate::specs::Table::not_opening))]
fn not_opening(responder: bool, header: Header, data: &[u8]) -> bool
    ensures { result ≡ not_opening responder header «data».now }
{
    header.kind != opening_of(responder)
        || packet_types::opening_fault(header.kind, header.number, data)
}

// AU-1: the user data of an AU1, in which both its ids stand.
#[derive(Clone, Copy)]
struct Au1Data<'a> {
    bytes: &'a [u8],
    ghost both_ids: { width_of au1_begins ≤ length bytes.now },
}

impl Au1Data<'_> {
    // AU-1: the caller's id.
    #[tactic(auto, unfolding(packet_types::specs::Types::caller_of))]
    fn caller(self) -> u32
        ensures { result ≡ caller_of self.entry.bytes.now }
    {
        field::number_at(self.bytes, packet_types::CALLER_AT)
    }

    // AU-1: the called id.
    #[tactic(auto, unfolding(packet_types::specs::Types::called_of))]
    fn called(self) -> u32
        ensures { result ≡ called_of self.entry.bytes.now }
    {
        field::number_at(self.bytes, packet_types::CALLED_AT)
    }
}

// LINK-310: who may call, and whom: the lent list of callers, and our own id.
#[derive(Clone, Copy)]
struct Callers<'a> {
    list: &'a [u8],
    ours: u32,
}

impl Callers<'_> {
    // LINK-LIST: an id is on the list, at any of its entries.
    fn listed(self, id: u32) -> bool
        ensures { result ≡ listed id self.entry.list.now }
    {
        self.list
            .chunks_exact(packet_types::ID_SIZE)
            .any(|entry| field::number_at::<u32>(entry, 0) == id)
    }

    // LINK-310: an AU1 that calls another than us, or whose caller is not on the list.
    #[tactic(auto, unfolding(crate::specs::Callers::not_allowed))]
    fn not_allowed(self, au1: Au1Data<'_>) -> bool
        ensures { result ≡ not_allowed self.entry.list.now self.entry.ours au1.entry.bytes.now }
    {
        au1.called() != self.ours || !self.listed(au1.caller())
    }
}

// LINK-306: opens again, repeats or lies behind.
#[tactic(auto, unfolding(crate::specs::Table::not_later))]
fn not_later(kind: u8, d: u16) -> bool
    ensures { result ≡ not_later kind d }
{
    packet_types::opens(kind) || d == 0 || BEHIND_FROM <= d
}

// LINK-307: leaves some out, where the setting is strict.
#[tactic(auto, unfolding(crate::specs::Table::too_far))]
fn too_far(strict: bool, d: u16) -> bool
    ensures { result ≡ too_far strict d }
{
    strict && 2 <= d
}

// A whole packet on a link, its length no fault: which link that is, where the packet stands, and its header.
#[derive(Clone, Copy)]
struct Found {
    normal: bool,
    at: usize,
    header: Header,
    ghost long_enough: { least_length ≤ header.length },
    ghost within: { at + packet_header_size < 2 ^ 64 },
}

#[tactic(auto, using(crate::proofs::Ids::has_both_ids), unfolding(crate::specs::Table::class_d_rows))]
impl Found {
    // LINK-USED: as many bytes as the packet has.
    fn used(self) -> usize
        ensures { result ≡ packet_size self.header.length }
    {
        usize::from(self.header.length) + packet::LENGTH_SIZE
    }

    // LINK-305, LINK-309, LINK-310, LINK-306, LINK-307: used and dropped.
    fn dropped(self, answer: u16, state: State) -> Taken
        ensures { result ≡ dropped answer self.normal self.header state }
    {
        empty_part(answer, self.normal, self.used(), state)
    }

    // LINK-0: handed up, and its number remembered.
    fn handed_up(self, state: State) -> Taken
        ensures { result ≡ handed_up self.normal self.at self.header state }
    {
        Taken {
            answer: 0,
            normal: self.normal,
            used: self.used(),
            start: self.at + packet::PACKET_HEADER_SIZE,
            size: usize::from(self.header.length - packet::LEAST_LENGTH),
            version: self.header.version,
            application: self.header.application,
            kind: self.header.kind,
            number: self.header.number,
            state: State {
                first: false,
                last: self.header.number,
                ..state
            },
        }
    }

    // LINK-309, LINK-310, LINK-0: the rows of class D for the first packet. The list judges a responder alone.
    fn first_packet(self, data: &[u8], callers: Callers<'_>, state: State) -> Taken
        requires { (in_class_d self.header.kind ≡ true) × (state.first ≡ true) }
        ensures { result ≡ class_d_rows self.normal self.at self.header «data».now callers.entry.list.now callers.entry.ours state }
    {
        if not_opening(state.responder, self.header, data) {
            self.dropped(309, state)
        } else if state.responder && callers.not_allowed(Au1Data { bytes: data }) {
            self.dropped(310, state)
        } else {
            self.handed_up(state)
        }
    }

    // LINK-306, LINK-307, LINK-0: the rows of class D for a later packet. They look neither at its user data nor at the list and our own
    // id.
    fn later_packet(self, state: State) -> Taken
        requires { (in_class_d self.header.kind ≡ true) × (state.first ≡ false) }
        ensures { (user_data callers : List ℕ) (ours : ℕ) →
            result ≡ class_d_rows self.normal self.at self.header user_data callers ours state }
    {
        let d = number::distance_of(self.header.number, state.last);
        if not_later(self.header.kind, d) {
            self.dropped(306, state)
        } else if too_far(state.strict, d) {
            self.dropped(307, state)
        } else {
            self.handed_up(state)
        }
    }

    // LINK-305, and the rows of the first packet or of a later one.
    fn class_d_rows(self, data: &[u8], callers: Callers<'_>, state: State) -> Taken
        ensures { result ≡ class_d_rows self.normal self.at self.header «data».now callers.entry.list.now callers.entry.ours state }
    {
        if !packet_types::in_class_d(self.header.kind) {
            self.dropped(305, state)
        } else if state.first {
            self.first_packet(data, callers, state)
        } else {
            self.later_packet(state)
        }
    }
}

// LINK-302, LINK-303, LINK-304, and the rows of the packet's class: of the link looked at.
#[tactic(auto, unfolding(crate::specs::Table::link_rows, crate::specs::Table::judgeable, crate::specs::Table::length_fault))]
fn rows_of(normal: bool, s: &[u8], at: usize, callers: Callers<'_>, state: State) -> Taken
    requires { (both_down state ≡ false) × (judgeable s.now at ≡ true) }
    ensures { result ≡ rows_of true normal s.now at callers.entry.list.now callers.entry.ours state }
{
    if length_fault(field::number_at(s, at)) {
        return link_down(302, normal, state);
    }
    let header = packet::packet_header_at(s, at);
    if header.check != packet::check_at(s, at) {
        link_down(303, normal, state)
    } else if header.flag != packet::flag_of(normal) {
        link_down(304, normal, state)
    } else {
        let found = Found { normal, at, header };
        found.class_d_rows(packet::user_data_at(s, at, header.length), callers, state)
    }
}

// LINK-LOOK: one step over two links, at the normal one first.
// Stays: a slice with a place beside it, and no reader: FORM-8, the functions of slices and numbers do a reader's work.
#[tactic(auto, unfolding(crate::specs::Table::taken_of, crate::specs::Table::link_rows, crate::specs::Table::both_down))]
pub fn take<'a>(
    normal: &'a [u8],
    normal_at: usize,
    redundant: &'a [u8],
    redundant_at: usize,
    callers: &'a [u8],
    ours: u32,
    state: State,
) -> Taken
    ensures { result ≡ taken_of normal.now normal_at redundant.now redundant_at
        callers.now ours state }
{
    let callers = Callers {
        list: callers,
        ours,
    };
    if held(state.normal_up, normal, normal_at) {
        rows_of(true, normal, normal_at, callers, state)
    } else if held(state.redundant_up, redundant, redundant_at) {
        rows_of(false, redundant, redundant_at, callers, state)
    } else if both_down(state) {
        empty_part(308, true, 0, state)
    } else {
        empty_part(301, true, 0, state)
    }
}

// LINK-MADE: a part of a slice, nothing where it does not lie within.
// Stays: two tests, and no `get`: the clause on `part_place` says where the part lies, and `get` says only which bytes it has.
fn part_of<'a>(s: &'a [u8], start: usize, size: usize) -> &'a [u8]
    ensures { (result.now ≡ part_of s.now start size) × (result.ref_ptr ≡ part_place s.entry start size) }
{
    if start <= s.len() && size <= s.len() - start {
        let end = start + size;
        &s[start..end]
    } else {
        &s[..0]
    }
}

// The user data that a step hands up, a part of the normal or the redundant link's own slice (LINK-PART, LINK-EMPTY).
#[tactic(auto, unfolding(crate::specs::Table::user_data_of, crate::specs::Place::user_data_place))]
pub fn user_data_of<'a>(normal: &'a [u8], redundant: &'a [u8], taken: Taken) -> &'a [u8]
    ensures { (result.now ≡ user_data_of normal.now redundant.now taken)
        × (result.ref_ptr ≡ user_data_place normal.entry redundant.entry taken) }
{
    if taken.answer != 0 {
        &normal[..0]
    } else if taken.normal {
        part_of(normal, taken.start, taken.size)
    } else {
        part_of(redundant, taken.start, taken.size)
    }
}
