// A table of any size, for a program that owns its records: the first records of a slice are lent to the call.
#![tactic(auto)]

ghost use Rattle.std.specs.Prelude.{◌≡◌, ◌≤◌, length, take, drop};
ghost use Rattle.table.specs.Table.{leaves_at, made_at};
ghost use Rattle.lent_table.specs.LentTable.{behind};

use calls::{Answer, Call};
use clock::Count;
use connection::Connection;

// TABLE-1: the records of a program, one more than a table has at most, so that a table too large can be lent.
pub const RECORDS: usize = 65;

// Any call on a table, by the function that a host calls for it.
#[tactic(auto)]
fn by_its_name(
    table: &mut [Connection],
    slot: usize,
    call: Call,
    now: Count,
    lent: &[u8],
    out: &mut [u8],
) -> Answer
    ensures { leaves_at result table.new out.new
        ≡ made_at table.old slot call now lent.now out.old }
{
    match call {
        Call::Begin(g) => table::begin(
            table,
            slot,
            g.role,
            g.settings,
            g.own.number,
            g.own.period,
            now,
            out,
        ),
        Call::Receive => table::receive(table, slot, now, lent, out),
        Call::Send => table::send(table, slot, now, lent, out),
        Call::Tick => table::tick(table, slot, now),
        Call::Close => table::close(table, slot),
    }
}

// TABLE-3: any call on the first records, by the function that a host calls for it; no call has those behind them.
// Stays: the size beside the slice, since this function's clause says that the records behind it are left (`behind`).
pub fn make(
    records: &mut [Connection],
    size: usize,
    slot: usize,
    call: Call,
    now: Count,
    lent: &[u8],
    out: &mut [u8],
) -> Answer
    requires { size ≤ length records.old }
    ensures { leaves_at result records.new out.new
        ≡ behind (made_at (take size records.old) slot call now lent.now out.old) (drop size records.old) }
{
    by_its_name(&mut records[..size], slot, call, now, lent, out)
}
