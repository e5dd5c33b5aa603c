// The table of connections, a lent slice of records: a call on one slot, and the same for whoever owns a table of 64.
#![tactic(auto)]

ghost use Rattle.std.specs.Prelude.{◌≡◌, []};
ghost use Rattle.connection.specs.Connection.{no_count};
ghost use Rattle.calls.specs.declared.Call.{Call};
ghost use Rattle.calls.specs.Calls.{given};
ghost use Rattle.table.specs.Table.{bad_slot, leaves_at, made_at};

use calls::{Answer, Call, Given};
use clock::Count;
use connection::{Connection, Own, Settings};

// TABLE-1: as many records a table has at most.
pub const MOST_RECORDS: usize = 64;

// CALL-101: a bad slot or table size.
#[tactic(auto, unfolding(crate::specs::Table::bad_slot))]
fn bad_slot(size: usize, slot: usize) -> bool
    ensures { result ≡ bad_slot size slot }
{
    size == 0 || MOST_RECORDS < size || size <= slot
}

// Any call.
#[tactic(auto, unfolding(crate::specs::Table::bad_slot, crate::specs::Table::made_at))]
pub fn make(
    table: &mut [Connection],
    slot: usize,
    call: Call,
    now: Count,
    lent: &[u8],
    out: &mut [u8],
) -> Answer
    ensures { leaves_at result table.new out.new
        ≡ made_at table.old slot call now lent.now out.old }
{
    if bad_slot(table.len(), slot) {
        return calls::refusal(101);
    }
    let made = calls::make(table[slot], call, now, lent, out);
    table[slot] = made.next;
    made.answer
}

// Stays: five wrappers of `make`, alike but for their call: 01 asks for thin ones (FORM-9), and README names them.

// CALL-BEGIN.
pub fn begin(
    table: &mut [Connection],
    slot: usize,
    role: u8,
    settings: Settings,
    first: u16,
    period: u32,
    now: Count,
    out: &mut [u8],
) -> Answer
    ensures { leaves_at result table.new out.new
        ≡ made_at table.old slot (Call.Begin (given role settings first period)) now [] out.old }
{
    let given = Given {
        role,
        settings,
        own: Own {
            number: first,
            period,
        },
    };
    make(table, slot, Call::Begin(given), now, b"", out)
}

// CALL-RECEIVE.
pub fn receive(
    table: &mut [Connection],
    slot: usize,
    now: Count,
    message: &[u8],
    out: &mut [u8],
) -> Answer
    ensures { leaves_at result table.new out.new
        ≡ made_at table.old slot Call.Receive now message.now out.old }
{
    make(table, slot, Call::Receive, now, message, out)
}

// CALL-SEND.
pub fn send(
    table: &mut [Connection],
    slot: usize,
    now: Count,
    data: &[u8],
    out: &mut [u8],
) -> Answer
    ensures { leaves_at result table.new out.new
        ≡ made_at table.old slot Call.Send now «data».now out.old }
{
    make(table, slot, Call::Send, now, data, out)
}

// CALL-TICK: it is lent nothing.
pub fn tick(table: &mut [Connection], slot: usize, now: Count) -> Answer
    ensures { leaves_at result table.new [] ≡ made_at table.old slot Call.Tick now [] [] }
{
    make(table, slot, Call::Tick, now, b"", &mut [])
}

// CALL-CLOSE: it is lent nothing, and has no now.
pub fn close(table: &mut [Connection], slot: usize) -> Answer
    ensures { leaves_at result table.new [] ≡ made_at table.old slot Call.Close no_count [] [] }
{
    make(table, slot, Call::Close, Count(0), b"", &mut [])
}

// A call's answer, and the table that it leaves.
#[derive(Clone, Copy)]
pub struct Held {
    pub answer: Answer,
    pub table: [Connection; MOST_RECORDS],
}

// Any call, for whoever owns the table.
pub fn make_in(
    t: [Connection; MOST_RECORDS],
    slot: usize,
    call: Call,
    now: Count,
    lent: &[u8],
    out: &mut [u8],
) -> Held
    ensures { leaves_at result.answer result.table out.new
        ≡ made_at t slot call now lent.now out.old }
{
    let mut table = t;
    let answer = make(&mut table, slot, call, now, lent, out);
    Held { answer, table }
}
