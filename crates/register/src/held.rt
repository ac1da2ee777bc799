// A grid that stands at its place, and what a client holds of it.
ghost use Rattle.std.specs.Prelude.{◌≡◌, true};
ghost use Rattle.layout.specs.Layout.{decode};
ghost use Rattle.calls.specs.Entries.{held_by};
ghost use Rattle.calls.specs.Valid.{gone_at, held_as};
ghost use Rattle.register.specs.Sought.{Sought};

use lines::{entries, head, holdings};

// What the client holds of it.
pub fn holding(register: &[u8], count: usize, place: usize, client: usize, least: &[u8]) -> usize
    requires { Sought true count place client register.now least.now }
    ensures { result ≡ held_by client least.now (decode register.now).entries }
{
    let size = least.len();
    let start = entries::line_start(size, place);
    holdings::read_holding(&register[start..], size, client)
}

// Takes its line out: the count goes down by 1.
fn take_out(register: &mut [u8], count: usize, place: usize, client: usize, least: &[u8])
    requires { Sought true count place client register.old least.now }
    ensures { register.new ≡ gone_at register.old place }
{
    let size = least.len();
    let start = entries::line_start(size, place);
    let moved = (count - (place + 1)) * entries::line_length(size);
    entries::remove_line(&mut register[start..], moved, size);
    head::write_count(register, count - 1);
}

// The client holds so many of it from now on. Where nobody holds it then, its line is taken out.
pub fn hold(
    register: &mut [u8],
    count: usize,
    place: usize,
    client: usize,
    least: &[u8],
    number: usize,
)
    requires { Sought true count place client register.old least.now }
    ensures { register.new ≡ held_as register.old client least.now number }
{
    let size = least.len();
    let start = entries::line_start(size, place);
    if holdings::still_held(&register[start..], size, client, number) {
        holdings::write_holding(&mut register[start..], size, client, number);
        return;
    }
    take_out(register, count, place, client, least);
}
