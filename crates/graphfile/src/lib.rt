#![tactic(auto)]
// The file `graph` that the programs read, and the reading of any input into a lent buffer.
ghost use Rattle.std.specs.Prelude.{◌≡◌, ◌≤◌, length, take};
ghost use Rattle.std.specs.Io.KnownBytes.{Consumes};

use std::fs;
use std::io::Read;
use std::rt::Files;

// The room that a program lends for the file: a byte more than a graph file may have shows that it has more.
pub const FILE_ROOM: usize = 65537;

// A buffer of that length.
pub fn file_room() -> [u8; FILE_ROOM]
    ensures { 65537 ≡ length result }
{
    [0; FILE_ROOM]
}

// One read: how many bytes it gave, 0 at the end and where it fails.
fn read_some<R: Read>(source: &mut R, buffer: &mut [u8]) -> usize
    ensures within { result ≤ length buffer.new }
    ensures bytes { Consumes (R.remaining source.old) (R.remaining source.new) (take result buffer.new) }
{
    source.read(buffer).unwrap_or(0)
}

// Reads until the buffer is full, the source ends or a read fails. The count is of the bytes that it put at the start of the buffer,
// and these are what the source had.
pub fn read_full<R: Read>(source: &mut R, buffer: &mut [u8]) -> usize
    ensures within { result ≤ length buffer.new }
    ensures taken { result ≡ length (take result buffer.new) }
    ensures bytes { Consumes (R.remaining source.old) (R.remaining source.new) (take result buffer.new) }
{
    let mut done = 0;
    // A read may give fewer bytes than there is room for, so this is no counted loop.
    while done < buffer.len() {
        let n = read_some(source, &mut buffer[done..]);
        if n == 0 {
            break;
        }
        done += n;
    }
    done
}

// "A file that can't be opened counts as empty", and so does one that can't be read, as a folder.
pub fn read_graph<F: Files>(files: &F, buffer: &mut [u8]) -> usize
    ensures within { result ≤ length buffer.new }
    ensures taken { result ≡ length (take result buffer.new) }
{
    let Ok(mut graph) = fs::open(files, "graph") else {
        return 0;
    };
    read_full(&mut graph, buffer)
}

#[cfg(test)]
mod tests {
    use super::*;
    use std::io;
    use std::test::Fail;

    // Two bytes a read, and an error in place of the third.
    #[derive(Drop)]
    struct Failing {
        reads: u8,
    }

    impl Read for Failing {
        fn read(&mut self, buf: &mut [u8]) -> io::Result<usize> {
            if self.reads >= 2 || buf.len() < 2 {
                return Err(io::Error::from(io::ErrorKind::Other));
            }
            self.reads += 1;
            buf[0] = self.reads;
            buf[1] = 7;
            Ok(2)
        }
    }

    #[test]
    fn a_failed_read_ends_it(rt: HostRuntime) -> Result<(), Fail> {
        let mut buffer = [9u8; 6];
        let n = read_full(&mut Failing { reads: 0 }, &mut buffer);
        assert_eq!(rt; n, 4);
        assert_eq!(rt; buffer.as_slice(), [1, 7, 2, 7, 9, 9].as_slice());
        Ok(())
    }

    #[test]
    fn a_full_buffer_ends_it(rt: HostRuntime) -> Result<(), Fail> {
        let mut source: &[u8] = b"12345";
        let mut buffer = [0u8; 3];
        assert_eq!(rt; read_full(&mut source, &mut buffer), 3);
        assert_eq!(rt; buffer.as_slice(), b"123".as_slice());
        assert_eq!(rt; read_full(&mut source, &mut buffer), 2);
        assert_eq!(rt; buffer.as_slice(), b"453".as_slice());
        Ok(())
    }
}
