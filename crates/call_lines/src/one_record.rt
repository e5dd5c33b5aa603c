// A connection record's words in a line, group by group, in the order of the record's layout (connection_row/specs/Row).
ghost use Rattle.std.specs.Prelude.{◌≡◌, ◌+◌, ◌≤◌, length};
ghost use Rattle.call_lines.specs.Record.{most_limits_text, most_settings_text, most_own_text, most_peer_text};
ghost use Rattle.call_lines.specs.Record.{most_offsets_text, most_rest_text, most_record_text};
ghost use Rattle.text.specs.Text.{left, room_of};

use connection::{Connection, Offsets, Own, Peer, Settings};
use text::Room;

// T_start, T_off, the error limit.
fn put_limits<O: Room>(out: &mut O, settings: Settings)
    requires { most_limits_text ≤ left (O.held out.old) }
    ensures upper_bound { left (O.held out.old) ≤ left (O.held out.new) + most_limits_text }
    ensures text_bound { length (O.held out.new).text ≤ length (O.held out.old).text + most_limits_text }
    ensures same { room_of (O.held out.new) ≡ room_of (O.held out.old) }
{
    text::put_number(out, u64::from(settings.t_start));
    text::put_number(out, u64::from(settings.t_off));
    text::put_number(out, u64::from(settings.limit));
}

fn put_settings<O: Room>(out: &mut O, settings: Settings)
    requires { most_settings_text ≤ left (O.held out.old) }
    ensures upper_bound { left (O.held out.old) ≤ left (O.held out.new) + most_settings_text }
    ensures text_bound { length (O.held out.new).text ≤ length (O.held out.old).text + most_settings_text }
    ensures same { room_of (O.held out.new) ≡ room_of (O.held out.old) }
{
    text::put_number(out, u64::from(settings.n));
    text::put_number(out, u64::from(settings.t_max));
    text::put_number(out, u64::from(settings.e));
    put_limits(out, settings);
}

fn put_own<O: Room>(out: &mut O, own: Own)
    requires { most_own_text ≤ left (O.held out.old) }
    ensures upper_bound { left (O.held out.old) ≤ left (O.held out.new) + most_own_text }
    ensures text_bound { length (O.held out.new).text ≤ length (O.held out.old).text + most_own_text }
    ensures same { room_of (O.held out.new) ≡ room_of (O.held out.old) }
{
    text::put_number(out, u64::from(own.number));
    text::put_number(out, u64::from(own.period));
}

fn put_peer<O: Room>(out: &mut O, peer: Peer)
    requires { most_peer_text ≤ left (O.held out.old) }
    ensures upper_bound { left (O.held out.old) ≤ left (O.held out.new) + most_peer_text }
    ensures text_bound { length (O.held out.new).text ≤ length (O.held out.old).text + most_peer_text }
    ensures same { room_of (O.held out.new) ≡ room_of (O.held out.old) }
{
    text::put_number(out, u64::from(peer.number));
    text::put_number(out, u64::from(peer.stamp.0));
    text::put_number(out, u64::from(peer.arrival.0));
}

fn put_offsets<O: Room>(out: &mut O, offsets: Offsets)
    requires { most_offsets_text ≤ left (O.held out.old) }
    ensures upper_bound { left (O.held out.old) ≤ left (O.held out.new) + most_offsets_text }
    ensures text_bound { length (O.held out.new).text ≤ length (O.held out.old).text + most_offsets_text }
    ensures same { room_of (O.held out.new) ≡ room_of (O.held out.old) }
{
    text::put_centred(out, offsets.min);
    text::put_centred(out, offsets.max);
}

// What stands behind the peer's group: the start of the wait, the offsets, the error counter, the remembered clock.
fn put_rest<O: Room>(out: &mut O, c: Connection)
    requires { most_rest_text ≤ left (O.held out.old) }
    ensures upper_bound { left (O.held out.old) ≤ left (O.held out.new) + most_rest_text }
    ensures text_bound { length (O.held out.new).text ≤ length (O.held out.old).text + most_rest_text }
    ensures same { room_of (O.held out.new) ≡ room_of (O.held out.old) }
{
    text::put_number(out, u64::from(c.wait_start.0));
    put_offsets(out, c.offsets);
    text::put_number(out, u64::from(c.errors));
    text::put_number(out, u64::from(c.clock.0));
}

pub fn put_record<O: Room>(out: &mut O, c: Connection)
    requires { most_record_text ≤ left (O.held out.old) }
    ensures upper_bound { left (O.held out.old) ≤ left (O.held out.new) + most_record_text }
    ensures text_bound { length (O.held out.new).text ≤ length (O.held out.old).text + most_record_text }
    ensures same { room_of (O.held out.new) ≡ room_of (O.held out.old) }
{
    text::put_number(out, u64::from(c.phase));
    put_settings(out, c.settings);
    put_own(out, c.own);
    put_peer(out, c.peer);
    put_rest(out, c);
}
