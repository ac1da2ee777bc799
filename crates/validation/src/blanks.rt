// Blank lines.
ghost use Rattle.std.specs.Prelude.{◌≡◌, true, ◌↔◌, ◌≤◌, length};
ghost use Rattle.layout.specs.Layout.{line_start};
ghost use Rattle.layout.specs.Lines.{BlanksLaid};

use lines::entries;

// Whether the lines from one up to another are blank.
pub fn blanks_laid(register: &[u8], size: usize, from: usize, to: usize) -> bool
    requires { (size ≤ 128) × (from ≤ to) × (to ≤ 500) × (line_start size to ≤ length register.now) }
    ensures { (result ≡ true) ↔ BlanksLaid size from to register.now }
{
    // No blank line is made where there is none to compare: a count in a full register of one line takes a twentieth fewer instructions.
    if from == to {
        return true;
    }
    let length = entries::line_length(size);
    let mut room = [0; entries::LONGEST];
    entries::write_blank(&mut room, size);
    let blank = &room[..length];
    for e in from..to {
        let at = entries::line_start(size, e);
        if &register[at..at + length] != blank {
            return false;
        }
    }
    true
}
