// On standard error, what the report's one line `cannot write` has no room for: a name, and what became of it.
const STDERR: i32 = 2;

pub fn unfinished(name: &[u8]) {
    line(name, b": unfinished, and could not be removed\n");
}

pub fn not_put_back(name: &[u8]) {
    line(
        name,
        b": its old content could not be put back; it begins with '?', which no trace does\n",
    );
}

pub fn not_synced(name: &[u8]) {
    line(name, b": not known to have reached the disk\n");
}

fn line(name: &[u8], words: &[u8]) {
    io::write_all(STDERR, b"cantuvesh: ");
    io::write_all(STDERR, name);
    io::write_all(STDERR, words);
}
