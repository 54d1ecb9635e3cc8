// A reader is a source, and a writer a sink.
use ken_io::*;
use std::io;
use std::io::ErrorKind;
use std::test::Fail;

const DIGITS: &[u8; 10] = b"0123456789";

// A stream of which each call fails.
#[derive(Drop)]
struct Broken;

impl io::Read for Broken {
    fn read(&mut self, _buf: &mut [u8]) -> io::Result<usize> {
        Err(io::Error::from(ErrorKind::BrokenPipe))
    }
}

impl io::Write for Broken {
    fn write(&mut self, _buf: &[u8]) -> io::Result<usize> {
        Err(io::Error::from(ErrorKind::BrokenPipe))
    }

    fn flush(&mut self) -> io::Result<()> {
        Ok(())
    }
}

#[test]
fn a_reader_is_a_source(rt: HostRuntime) -> Result<(), Fail> {
    let read = read_all(rt.alloc(), &mut StdSource::new(DIGITS.as_slice()), 100)?;
    assert_eq!(rt; read.as_slice(), DIGITS.as_slice());
    let broken = read_all(rt.alloc(), &mut StdSource::new(Broken), 100);
    assert!(rt; matches!(broken, Err(ReadFault::Failed)));
    assert_eq!(rt; StdSource::new(rt.stdin()).read(&mut []), Ok(0));
    Ok(())
}

#[test]
fn a_writer_is_a_sink(rt: HostRuntime) -> Result<(), Fail> {
    let mut out = [0; 4];
    let mut four = StdSink::new(out.as_mut_slice());
    assert_eq!(rt; write_all(&mut four, b"0123"), Ok(()));
    assert_eq!(rt; write_all(&mut four, b"4"), Err(Failed));
    assert_eq!(rt; out.as_slice(), b"0123".as_slice());
    assert_eq!(rt; write_all(&mut StdSink::new(Broken), b"0"), Err(Failed));
    assert_eq!(rt; StdSink::new(rt.stdout()).write(b""), Ok(0));
    Ok(())
}
