// Readers of links: a lent slice with a cursor, and the functions of `links` over two of them.
#![tactic(auto)]

ghost use Rattle.std.specs.Prelude.{◌≡◌};
ghost use Rattle.links.specs.Place.{user_data_place};
ghost use Rattle.links.specs.Table.{taken_of, user_data_of};

use links::{State, Taken};

// LINK-READER: the bytes that were lent, and a place in them.
#[derive(Drop)]
pub struct LinkReader<'a> {
    pub bytes: &'a [u8],
    pub at: usize,
}

// LINK-READER: one step over two readers, by the lent list of callers and our own id.
pub fn take_from<'a>(
    normal: LinkReader<'a>,
    redundant: LinkReader<'a>,
    callers: &'a [u8],
    ours: u32,
    state: State,
) -> Taken
    ensures { let n = normal.entry in let m = redundant.entry in
        result ≡ taken_of n.bytes.now n.at m.bytes.now m.at callers.now ours state }
{
    links::take(
        normal.bytes,
        normal.at,
        redundant.bytes,
        redundant.at,
        callers,
        ours,
        state,
    )
}

// LINK-PART: the user data that a step over two readers hands up.
pub fn user_data_from<'a>(
    normal: LinkReader<'a>,
    redundant: LinkReader<'a>,
    taken: Taken,
) -> &'a [u8]
    ensures { (result.now ≡ user_data_of normal.entry.bytes.now redundant.entry.bytes.now taken)
        × (result.ref_ptr ≡ user_data_place normal.entry.bytes redundant.entry.bytes taken) }
{
    links::user_data_of(normal.bytes, redundant.bytes, taken)
}

// LINK-READER: one step through two readers that are made of the slices and the places in them.
pub fn take_by_readers<'a>(
    normal: &'a [u8],
    normal_at: usize,
    redundant: &'a [u8],
    redundant_at: usize,
    callers: &'a [u8],
    ours: u32,
    state: State,
) -> Taken
    ensures { result ≡ taken_of normal.now normal_at redundant.now redundant_at
        callers.now ours state }
{
    take_from(
        LinkReader {
            bytes: normal,
            at: normal_at,
        },
        LinkReader {
            bytes: redundant,
            at: redundant_at,
        },
        callers,
        ours,
        state,
    )
}

// LINK-PART: the user data that a step through such readers hands up.
pub fn user_data_by_readers<'a>(
    normal: &'a [u8],
    normal_at: usize,
    redundant: &'a [u8],
    redundant_at: usize,
    taken: Taken,
) -> &'a [u8]
    ensures { (result.now ≡ user_data_of normal.now redundant.now taken)
        × (result.ref_ptr ≡ user_data_place normal.entry redundant.entry taken) }
{
    user_data_from(
        LinkReader {
            bytes: normal,
            at: normal_at,
        },
        LinkReader {
            bytes: redundant,
            at: redundant_at,
        },
        taken,
    )
}
