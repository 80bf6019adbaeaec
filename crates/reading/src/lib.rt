// Reading into a lent buffer until it is full.
#![tactic(auto)]

ghost use Rattle.std.specs.Prelude.{◌≡◌, ◌<◌, ◌≤◌, IfOk, length, replicate, take};
ghost use Rattle.std.specs.Io.KnownBytes.{Consumes, IsAtEnd};

use std::io;
use std::io::Read;

// A buffer of N zeros, by their number alone: the length of a large array that stands in its user's body is computed digit by digit.
pub fn zeros<const N: usize>() -> [u8; N]
    ensures long { length result ≡ N }
    ensures zero { result ≡ replicate N 0 }
{
    [0u8; N]
}

// Reads until the buffer is full or the input ends. Answers how many bytes were read: fewer than the buffer holds only where the input ended.
pub fn read_full<R: Read>(reader: &mut R, buf: &mut [u8]) -> io::Result<usize>
    ensures bound { IfOk result (λ n. n ≤ length buf.new) }
    ensures bytes { IfOk result (λ n. Consumes (R.remaining reader.old) (R.remaining reader.new) (take n buf.new)) }
    ensures end { IfOk result (λ n. n < length buf.new → IsAtEnd (R.remaining reader.new)) }
{
    // By place: each read says how far it went, and std's `read_exact` says little of an input that ends before.
    let mut done = 0;
    while done < buf.len() {
        let n = reader.read(&mut buf[done..])?;
        if n == 0 {
            return Ok(done);
        }
        done += n;
    }
    Ok(done)
}

#[cfg(test)]
mod tests {
    use super::read_full;
    use std::io;
    use std::io::{Error, ErrorKind, Read};

    // Gives one byte a call, and then fails.
    #[derive(Drop)]
    struct Faltering {
        left: u8,
    }

    impl Read for Faltering {
        fn read(&mut self, buf: &mut [u8]) -> io::Result<usize> {
            if self.left == 0 {
                return Err(Error::from(ErrorKind::Other));
            }
            if buf.is_empty() {
                return Ok(0);
            }
            buf[0] = self.left;
            self.left -= 1;
            Ok(1)
        }
    }

    #[test]
    fn longer_input_fills_the_buffer(rt: HostRuntime) -> io::Result<()> {
        let mut buf = [0u8; 4];
        let mut input = b"abcdef".as_slice();
        let got = read_full(&mut input, &mut buf)?;
        assert_eq!(rt; got, 4);
        assert_eq!(rt; buf, [97u8, 98, 99, 100]);
        assert_eq!(rt; input.len(), 2);
        Ok(())
    }

    #[test]
    fn shorter_input_is_read_to_its_end(rt: HostRuntime) -> io::Result<()> {
        let mut buf = [0u8; 4];
        let mut input = b"ab".as_slice();
        let got = read_full(&mut input, &mut buf)?;
        assert_eq!(rt; got, 2);
        assert_eq!(rt; buf, [97u8, 98, 0, 0]);
        Ok(())
    }

    #[test]
    fn a_byte_at_a_time_fills_the_buffer(rt: HostRuntime) -> io::Result<()> {
        let mut buf = [0u8; 3];
        let got = read_full(&mut Faltering { left: 3 }, &mut buf)?;
        assert_eq!(rt; got, 3);
        assert_eq!(rt; buf, [3u8, 2, 1]);
        Ok(())
    }

    #[test]
    fn a_failing_read_is_an_error(rt: HostRuntime) {
        let mut buf = [0u8; 4];
        let failed = read_full(&mut Faltering { left: 3 }, &mut buf).is_err();
        assert!(rt; failed);
    }
}
