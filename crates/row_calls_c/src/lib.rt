// What C calls: each function of `row_calls`, exported under its name and with its clause; a slice is a pointer and then a length.
// Stays: seven twins of `row_calls`, since a crate is a library or what C links, and the exported names may not change.
#![tactic(auto)]

ghost use Rattle.std.specs.Prelude.{◌≡◌, ◌∷◌, []};
ghost use Rattle.connection.specs.Connection.{no_count};
ghost use Rattle.connection_row.specs.Row.{settings_from, count_from};
ghost use Rattle.connection_row.specs.Stored.{wrote};
ghost use Rattle.calls.specs.declared.Call.{Call};
ghost use Rattle.calls.specs.Calls.{given};
ghost use Rattle.row_calls.specs.RowCalls.{stored, leaves_in, made_in};
ghost use Rattle.row_calls.specs.Numbers.{fields_read, fields_written};

// CALL-BEGIN over a row.
#[unsafe(no_mangle)]
pub extern "C" fn zorakunju_begin(
    row: &mut [u8],
    role: u8,
    n: u16,
    t_max: u32,
    e: u32,
    t_start: u32,
    t_off: u32,
    limit: u8,
    first: u16,
    period: u32,
    now: u32,
    out: &mut [u8],
    answer: &mut [u8],
) -> u32
    ensures { leaves_in (stored result row.new answer.new) out.new
        ≡ made_in (Call.Begin (given role (settings_from (n ∷ t_max ∷ e ∷ t_start ∷ t_off ∷ limit ∷ [])) first period))
        row.old (count_from now) [] out.old answer.old }
{
    row_calls::zorakunju_begin(
        row, role, n, t_max, e, t_start, t_off, limit, first, period, now, out, answer,
    )
}

// CALL-RECEIVE over a row.
#[unsafe(no_mangle)]
pub extern "C" fn zorakunju_receive(
    row: &mut [u8],
    now: u32,
    message: &[u8],
    out: &mut [u8],
    answer: &mut [u8],
) -> u32
    ensures { leaves_in (stored result row.new answer.new) out.new
        ≡ made_in Call.Receive row.old (count_from now) message.now out.old answer.old }
{
    row_calls::zorakunju_receive(row, now, message, out, answer)
}

// CALL-SEND over a row.
#[unsafe(no_mangle)]
pub extern "C" fn zorakunju_send(
    row: &mut [u8],
    now: u32,
    data: &[u8],
    out: &mut [u8],
    answer: &mut [u8],
) -> u32
    ensures { leaves_in (stored result row.new answer.new) out.new
        ≡ made_in Call.Send row.old (count_from now) «data».now out.old answer.old }
{
    row_calls::zorakunju_send(row, now, data, out, answer)
}

// CALL-TICK over a row.
#[unsafe(no_mangle)]
pub extern "C" fn zorakunju_tick(row: &mut [u8], now: u32, answer: &mut [u8]) -> u32
    ensures { leaves_in (stored result row.new answer.new) []
        ≡ made_in Call.Tick row.old (count_from now) [] [] answer.old }
{
    row_calls::zorakunju_tick(row, now, answer)
}

// CALL-CLOSE over a row.
#[unsafe(no_mangle)]
pub extern "C" fn zorakunju_close(row: &mut [u8], answer: &mut [u8]) -> u32
    ensures { leaves_in (stored result row.new answer.new) []
        ≡ made_in Call.Close row.old no_count [] [] answer.old }
{
    row_calls::zorakunju_close(row, answer)
}

// ROW-9.
#[unsafe(no_mangle)]
pub extern "C" fn zorakunju_read_row(row: &[u8], fields: &mut [u32]) -> u32
    ensures { wrote result fields.new ≡ fields_read row.now fields.old }
{
    row_calls::zorakunju_read_row(row, fields)
}

// ROW-10.
#[unsafe(no_mangle)]
pub extern "C" fn zorakunju_write_row(fields: &[u32], row: &mut [u8]) -> u32
    ensures { wrote result row.new ≡ fields_written fields.now row.old }
{
    row_calls::zorakunju_write_row(fields, row)
}
