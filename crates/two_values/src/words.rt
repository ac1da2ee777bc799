// Rows and columns of the tables as numbers, one binary digit for each cell.
ghost use Rattle.std.specs.Prelude.{◌*◌, ◌≤◌};
ghost use Rattle.two_values.specs.Tables.{Bits};
ghost use Rattle.two_values.specs.Words.{WordsOf};

// The table holds a digit of each line, then the next digit of each, and so on. For each line the number that has its digits, the first one
// highest.
pub fn words<const DIGITS: usize, const LINES: usize>(table: &[u8; 128]) -> [u32; LINES]
    requires { Bits table.now × (DIGITS ≤ 16) × (DIGITS * LINES ≤ 128) }
    ensures { WordsOf DIGITS LINES table.now result }
{
    let mut out = [0u32; LINES];
    for digit in 0..DIGITS {
        for line in 0..LINES {
            out[line] = 2 * out[line] + table[digit * LINES + line] as u32;
        }
    }
    out
}
