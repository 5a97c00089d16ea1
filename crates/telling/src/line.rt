// A line, put together from its start and told whole.
ghost use Rattle.std.specs.Prelude.{◌≤◌};

use std::fmt;
use std::fmt::Write as _;
use std::io::Write;

// The bytes of a line, of which the first `end` are put.
#[derive(Drop)]
struct Line {
    bytes: [u8; 256],
    end: usize,
    ghost inside: { end ≤ 256 },
}

impl fmt::Write for Line {
    // What has no room is left out.
    fn write_str(&mut self, text: &str) -> fmt::Result {
        let mut line = text::Line {
            bytes: &mut self.bytes,
            end: self.end,
        };
        line.put_text(text.as_bytes());
        self.end = line.end;
        Ok(())
    }
}

// Tells a line, by one write. A failure to do so is passed over.
pub fn tell<W: Write, D: fmt::Display + Drop>(to: &mut W, text: D) {
    let mut line = Line {
        bytes: [0; 256],
        end: 0,
    };
    let _ = writeln!(line, "{text}");
    let _ = to.write_all(&line.bytes[..line.end]);
}
