// When a read or a write that failed is made again: it was interrupted, or its descriptor was not ready.
ghost use Rattle.std.specs.Prelude.{◌≡◌, ◌+◌, IfOk};

use std::io::ErrorKind;
use std::time::{Clock, Duration};
use std::{io, thread};

// How often it is still made again.
#[derive(Drop)]
pub struct Tries {
    pub left: usize,
}

impl Tries {
    // How often in one run. With a twentieth of a second between two tries these are five minutes.
    pub fn new() -> Tries {
        Tries { left: 6000 }
    }

    // Whether the call that has just failed is to be made again; its error where it is not, or no longer.
    pub fn again(&mut self, rt: &impl Clock, error: io::Error) -> io::Result<()>
        ensures { IfOk result (λ done. self.new.left + 1 ≡ self.old.left) }
    {
        if self.left == 0 || !try_again(rt, &error) {
            return Err(error);
        }
        self.left -= 1;
        Ok(())
    }
}

// Waits a twentieth of a second.
fn wait(rt: &impl Clock) {
    thread::sleep(rt, Duration::from_millis(50));
}

// Whether a failure may pass; where a descriptor was not ready, after a wait.
fn try_again(rt: &impl Clock, error: &io::Error) -> bool {
    match error.kind() {
        ErrorKind::Interrupted => true,
        ErrorKind::WouldBlock => {
            wait(rt);
            true
        }
        _ => false,
    }
}
