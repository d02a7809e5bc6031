// How long the system lets a file become, from what it tells of a process's limits.
use std::str::from_utf8;

// The soft limit in a text as Linux has it under /proc/self/limits, where it is a number of bytes.
pub fn limit_in(text: &[u8]) -> Option<u64> {
    for line in from_utf8(text).ok()?.lines() {
        if let Some(rest) = line.strip_prefix("Max file size") {
            return rest.split_whitespace().next()?.parse::<u64>().ok();
        }
    }
    None
}

#[cfg(test)]
mod tests {
    use super::limit_in;

    // The first lines as Linux writes them, with and without a limit, the largest number, and texts in which there is none.
    #[test]
    fn takes_the_soft_limit(rt: HostRuntime) {
        let limited = b"\
            Limit                     Soft Limit           Hard Limit           Units     \n\
            Max cpu time              7                    8                    seconds   \n\
            Max file size             20480                40960                bytes     \n\
            Max data size             9                    9                    bytes     \n";
        let unlimited = b"\
            Max file size             unlimited            unlimited            bytes     \n\
            Max data size             9                    9                    bytes     \n";
        let largest =
            b"Max file size             18446744073709551614 unlimited            bytes     \n";
        assert_eq!(rt; limit_in(limited), Some(20_480));
        assert_eq!(rt; limit_in(unlimited), None);
        assert_eq!(rt; limit_in(largest), Some(18_446_744_073_709_551_614));
        assert_eq!(rt; limit_in(b"Max cpu time              7"), None);
        assert_eq!(rt; limit_in(b"Max file size"), None);
        assert_eq!(rt; limit_in(b""), None);
    }
}
