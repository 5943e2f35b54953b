// Input read into a buffer that the caller has.
#![tactic(auto)]

ghost use Rattle.std.specs.Prelude.{◌≡◌, ◌<◌, length, take, IfOk, OnErr};
ghost use Rattle.std.specs.Io.KnownBytes.{Consumes, IsAtEnd};
ghost use Rattle.input.specs.Counts.{IsPrefixLen};

mod reports;

pub use reports::write_report;
use std::io;
use std::io::Read;

// Reads until the buffer is full or the input ends, and answers how many bytes stand at its start.
pub fn read_full<R: Read>(reader: &mut R, out: &mut [u8]) -> io::Result<usize>
    ensures in_bounds { IfOk result (λ n. IsPrefixLen n out.new) }
    ensures bytes { IfOk result (λ n. Consumes (R.remaining reader.old) (R.remaining reader.new) (take n out.new)) }
    ensures end { IfOk result (λ n. n < length out.new → IsAtEnd (R.remaining reader.new)) }

    // The error is the reader's. The buffer keeps its length, and may hold some of what was read.
    ensures left { OnErr result (length out.new ≡ length out.old) }
{
    let mut done = 0;
    // By hand: each read says where the next one begins (d).
    while done < out.len() {
        let n = reader.read(&mut out[done..])?;
        if n == 0 {
            return Ok(done);
        }
        done += n;
    }
    Ok(done)
}

#[cfg(test)]
mod tests {
    use super::read_full;
    use std::io;
    use std::io::Read;
    use std::test::Fail;

    // Gives at most two bytes of a text at a time, and fails once `left` reads are done.
    #[derive(Drop)]
    struct Failing<'a> {
        text: &'a [u8],
        left: u8,
    }

    impl Read for Failing<'_> {
        fn read(&mut self, buf: &mut [u8]) -> io::Result<usize> {
            if self.left == 0 {
                return Err(io::Error::from(io::ErrorKind::ConnectionReset));
            }
            self.left -= 1;
            let room = buf.len().min(2);
            self.text.read(&mut buf[..room])
        }
    }

    fn failing_after(left: u8) -> Failing<'static> {
        Failing {
            text: b"abcdefg",
            left,
        }
    }

    #[test]
    fn reads_as_far_as_there_is_room(rt: HostRuntime) -> Result<(), Fail> {
        for (length, n) in [(0, 0), (3, 3), (5, 5), (7, 5)] {
            let mut text: &[u8] = &b"abcdefg"[..length];
            let mut out = [0u8; 5];
            assert_eq!(rt; read_full(&mut text, &mut out)?, n, "of {length}");
            assert_eq!(rt; &out[..n], &b"abcde"[..n], "of {length}");
            assert_eq!(rt; text.len(), length - n, "left of {length}");
        }
        Ok(())
    }

    #[test]
    fn goes_on_after_a_short_read(rt: HostRuntime) -> Result<(), Fail> {
        let mut out = [0u8; 5];
        assert_eq!(rt; read_full(&mut failing_after(3), &mut out)?, 5);
        assert_eq!(rt; out.as_slice(), b"abcde".as_slice());
        Ok(())
    }

    #[test]
    fn fails_where_a_read_fails(rt: HostRuntime) {
        let mut out = [0u8; 5];
        assert!(rt; read_full(&mut failing_after(2), &mut out).is_err());
    }
}
