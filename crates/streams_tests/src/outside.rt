use std::io;
use std::io::{ErrorKind, Read};
use std::test::Fail;
use tv_text::{ReadError, ReaderSource, WriteError, WriterSink, read_all, write_all};

/// A reader whose connection breaks once a text has come.
#[derive(Drop)]
struct Breaking<'a> {
    text: &'a [u8],
}

impl<'a> Read for Breaking<'a> {
    fn read(&mut self, buf: &mut [u8]) -> io::Result<usize> {
        if self.text.is_empty() {
            return Err(io::Error::from(ErrorKind::ConnectionReset));
        }
        self.text.read(buf)
    }
}

#[test]
fn a_reader_is_read(rt: HostRuntime) -> Result<(), Fail> {
    let mut source = ReaderSource::new(b"START: 0;".as_slice());
    let text = read_all(rt.alloc(), &mut source, 9)?;
    assert!(rt; text.as_slice() == b"START: 0;".as_slice());
    Ok(())
}

#[test]
fn a_reader_that_breaks_is_a_fault(rt: HostRuntime) -> Result<(), Fail> {
    let mut source = ReaderSource::new(Breaking { text: b"START: 0;" });
    let answer = read_all(rt.alloc(), &mut source, 9);
    assert!(rt; answer.err() == Some(ReadError::Fault));
    Ok(())
}

#[test]
fn a_writer_is_written(rt: HostRuntime) -> Result<(), Fail> {
    let mut bytes = Vec::new(rt.alloc());
    let answer = write_all(&mut WriterSink::new(&mut bytes), b"Proved\n");
    assert!(rt; answer == Ok(()) && bytes.as_slice() == b"Proved\n".as_slice());
    Ok(())
}

// A full slice takes no byte, and that is a fault.
#[test]
fn a_full_writer_is_a_fault(rt: HostRuntime) -> Result<(), Fail> {
    let mut room = [b'-'; 3];
    let answer = write_all(&mut WriterSink::new(room.as_mut_slice()), b"Proved\n");
    assert!(rt; answer == Err(WriteError::Fault) && room == [b'P', b'r', b'o']);
    Ok(())
}
