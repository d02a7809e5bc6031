// Names: the text that one is, whether it is a link, the folder that it stands in, and a name beside it.
#![tactic(auto)]

ghost use Rattle.std.specs.Prelude.{◌≤◌, length, ◌≡◌, ◌↔◌, IfOk, IfSome, IsOk, IsUtf8, MatchOption, negsuc};
ghost use Rattle.std.specs.IoError.{raw_os_error};
ghost use Rattle.io.specs.Counts.{IsPrefixLen};

use std::fs;
use std::io::{Error, Result};
use std::rt::Files;
use std::str::from_utf8;

// The longest name that the system takes.
const LAST: usize = 4095;

// A name beside another says whose it is and what it is, since a run that is killed leaves it behind. Its Xs are to be made letters under
// which nothing stands.
const BESIDE: &[u8; 27] = b"cantuvesh.unfinished.XXXXXX";

// The system's numbers of errors: where a name is no link, and where it is no text.
const EINVAL: i32 = 22;

const EILSEQ: i32 = 84;

// A name as the system is given it, which is text.
pub fn text(name: &[u8]) -> Result<&str>
    ensures bytes { IfOk result (λ path. path.now ≡ name.now) }
    ensures found { IsOk result ↔ IsUtf8 name.now }
{
    from_utf8(name).map_err(|_| Error::from_raw_os_error(EILSEQ))
}

// The system's number of an error, or -1 where it gave none.
pub fn number(error: Error) -> i32
    ensures { MatchOption (raw_os_error error) (result ≡ negsuc 0) (λ code. result ≡ code) }
{
    error.raw_os_error().unwrap_or(-1)
}

// 0 where the name is a symbolic link, wherever that leads, and otherwise the error that says why not: EINVAL where something else
// stands there, ENOENT where nothing does.
pub fn link_error<R: Files>(rt: &R, name: &[u8]) -> i32 {
    match is_link(rt, name) {
        Ok(true) => 0,
        Ok(false) => EINVAL,
        Err(error) => number(error),
    }
}

// Whether the name is a symbolic link, wherever that leads; an error where nothing stands there, or where the name is no text.
pub fn is_link<R: Files>(rt: &R, name: &[u8]) -> Result<bool>
    ensures { IsOk result → IsUtf8 name.now }
{
    Ok(fs::symlink_metadata(rt, text(name)?)?.is_symlink())
}

// How much of a name is its folder, with the '/' at its end: where it has none, the empty one of length 0.
pub fn folder(name: &[u8]) -> usize
    ensures { result ≤ length name.now }
{
    name.iter()
        .rposition(|byte| *byte == b'/')
        .map_or(0, |i| i + 1)
}

// A name in the folder of another, at the start of a buffer; its length, or None where it does not fit.
pub fn beside(name: &[u8], buffer: &mut [u8]) -> Option<usize>
    ensures { IfSome result (λ n. IsPrefixLen n buffer.new) }
{
    let start = folder(name);
    if LAST - BESIDE.len() < start || buffer.len() < start + BESIDE.len() {
        return None;
    }
    let end = start + BESIDE.len();
    buffer[..start].copy_from_slice(&name[..start]);
    buffer[start..end].copy_from_slice(BESIDE);
    Some(end)
}

#[cfg(test)]
mod tests {
    use super::{is_link, number};
    use std::fs;
    use std::os::unix::fs::symlink;
    use std::test::Fail;

    const FOLDER: &str = "paths_is_link_test";

    fn told(rt: &HostRuntime, name: &[u8]) -> Result<bool, i32> {
        is_link(rt, name).map_err(number)
    }

    // A link to a folder, and one to nothing; the folder, by its name and by the link's, and a file in it. Then names under which nothing
    // stands, and two that the system is not asked about: one that is no text, and one with a 0 in it, for which there is no number.
    #[test]
    fn tells_a_link(rt: HostRuntime) -> Result<(), Fail> {
        let _ = fs::remove_dir_all(&rt, FOLDER);
        fs::create_dir(&rt, FOLDER)?;
        fs::write(&rt, "paths_is_link_test/file", b"".as_slice())?;
        symlink(&rt, ".", "paths_is_link_test/link")?;
        symlink(&rt, "none", "paths_is_link_test/nowhere")?;
        assert_eq!(rt; told(&rt, b"paths_is_link_test/link"), Ok(true));
        assert_eq!(rt; told(&rt, b"paths_is_link_test/nowhere"), Ok(true));
        assert_eq!(rt; told(&rt, b"paths_is_link_test"), Ok(false));
        assert_eq!(rt; told(&rt, b"paths_is_link_test/link/"), Ok(false));
        assert_eq!(rt; told(&rt, b"paths_is_link_test/link/file"), Ok(false));
        assert_eq!(rt; told(&rt, b"paths_is_link_test/none"), Err(2));
        assert_eq!(rt; told(&rt, b"paths_is_link_test/file/none"), Err(20));
        assert_eq!(rt; told(&rt, b""), Err(2));
        assert_eq!(rt; told(&rt, b"paths_is_link_test\xff"), Err(84));
        assert_eq!(rt; told(&rt, b"paths_is_link_test\0"), Err(-1));
        fs::remove_dir_all(&rt, FOLDER)?;
        Ok(())
    }
}
