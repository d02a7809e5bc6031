// A record as numbers. specs/Layout.antt says which stands where.
ghost use Rattle.std.specs.Prelude.{◌≡◌, ◌+◌, ◌*◌, ◌%◌, ◌^◌};
ghost use Rattle.signed.specs.Codes.{code_of};
ghost use Rattle.store.specs.Layout.{role_code, values_code, numbers_of};
ghost use Rattle.store.specs.Parts.{data_words};

use paper::{Data, Record, Role};

fn role_code(role: Role) -> u32
    ensures { result ≡ role_code role }
{
    match role {
        Role::Neither => 0,
        Role::Send(_) => 1,
        Role::Receive(_) => 2,
    }
}

fn values_code(values: Data) -> u32
    ensures { result ≡ values_code values }
{
    match values {
        Data::Three(_, _, _) => 1,
        Data::Others => 0,
    }
}

// What 32 bits hold of a signed number's code.
fn code_word(z: i64) -> u32
    ensures { result ≡ code_of z % 2 ^ 32 }
{
    let code = signed::code(z);
    (code % 4294967296) as u32
}

fn data_words(values: Data) -> [u32; 3]
    ensures { result ≡ data_words values }
{
    match values {
        Data::Three(a, b, c) => {
            let first = code_word(a);
            let second = code_word(b);
            let third = code_word(c);
            [first, second, third]
        }
        Data::Others => [0, 0, 0],
    }
}

// The processor with what the record is among the messages and what its data are.
fn mixed(processor: usize, role: Role, values: Data) -> u32
    ensures { result ≡ processor % 64 + 64 * role_code role + 256 * values_code values }
{
    let among = role_code(role);
    let form = values_code(values);
    (processor % 64) as u32 + 64 * among + 256 * form
}

pub(crate) fn numbers_of(line: usize, start: usize, body: Record) -> [u32; 10]
    ensures { result ≡ numbers_of start (record { line = line; body = body }) }
{
    let role = body.role;
    let values = body.values;
    let time = signed::code(body.time);
    let parts = mixed(body.processor, role, values);
    let kind = code_word(body.kind);
    let event = code_word(body.event);
    let data = data_words(values);
    [
        (time % 4294967296) as u32,
        (time / 4294967296 % 4294967296) as u32,
        (line % 4294967296) as u32,
        (start % 4294967296) as u32,
        parts,
        kind,
        event,
        data[0],
        data[1],
        data[2],
    ]
}
