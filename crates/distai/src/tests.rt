use crate::host_files::HostFiles;
use crate::host_out::HostOut;
use dai_base::{Files, PutError, ReadError, Sink};
use std::alloc::Global;
use std::fs;
use std::test::Fail;

#[test]
fn host_files_read(rt: HostRuntime) -> Result<(), Fail> {
    fs::write(&rt, "distai-test-file", "twelve bytes")?;
    fs::create_dir(&rt, "distai-test-folder")?;
    let mut files = HostFiles::new(&rt, rt.alloc());
    let whole = files.read_all("distai-test-file", 12).ok();
    let long = files.read_all("distai-test-file", 11).err();
    let missing = files.read_all("distai-no-such-file", 12).err();
    let folder = files.read_all("distai-test-folder", 12).err();
    let below_a_file = files.read_all("distai-test-file/name", 12).err();
    fs::remove_file(&rt, "distai-test-file")?;
    fs::remove_dir(&rt, "distai-test-folder")?;
    let whole = whole.ok_or("not read")?;
    assert_eq!(rt; whole.as_slice(), b"twelve bytes".as_slice());
    assert!(rt; long == Some(ReadError::TooLong));
    assert!(rt; missing == Some(ReadError::Missing));
    assert!(rt; folder == Some(ReadError::Failed));
    assert!(rt; below_a_file == Some(ReadError::Failed));
    Ok(())
}

#[test]
fn host_out_writes(rt: HostRuntime) -> Result<(), Fail> {
    let mut bytes: Vec<u8> = Vec::new(rt.alloc());
    {
        let mut out = HostOut::new(&mut bytes);
        assert!(rt; out.put(b"one line\n").is_ok());
        assert!(rt; out.put(b"").is_ok());
    }
    assert_eq!(rt; bytes.as_slice(), b"one line\n".as_slice());
    Ok(())
}

#[test]
fn a_full_device_is_a_fault(rt: HostRuntime) -> Result<(), Fail> {
    let mut out = HostOut::new(fs::create(&rt, "/dev/full")?);
    assert!(rt; out.put(b"one line\n") == Err(PutError::Failed));
    assert!(rt; out.put(b"").is_ok());
    Ok(())
}
