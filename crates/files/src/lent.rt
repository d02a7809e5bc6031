// What the programs lend for a file's bytes and for a table's latencies. Each array is a function of its own, which tells its length alone.
ghost use Rattle.std.specs.Prelude.{◌≡◌, length};

// Of a file that is too long one byte too many is read, which tells.
pub fn trace_buffer() -> [u8; 65537]
    ensures { length result ≡ 65537 }
{
    [0; 65537]
}

pub fn table_buffer() -> [u8; 16385]
    ensures { length result ≡ 16385 }
{
    [0; 16385]
}

pub fn no_latencies() -> [u32; 4096]
    ensures { length result ≡ 4096 }
{
    [0; 4096]
}
