// The input's fields: numbers of four bytes, high first, and rows behind their counts. What a field has is put to the start of a row that is
// as long as the field may be, and lent as a slice of it.
ghost use Rattle.std.specs.Prelude.{◌≤◌, IfOk, length};

// The input broke off, or went past a limit.
#[derive(Clone, Copy, PartialEq, Eq, Debug)]
pub struct Malformed;

// What a case is: a table, with the broken condition named or not; a reading or an update, made so many times; a reading list.
#[derive(Clone, Copy, PartialEq, Eq, Debug)]
pub enum Kind {
    Table { named: bool },
    Read { times: u32 },
    Update { times: u32 },
    List,
}

// The rows of an update: the table's bytes, the words of the old row, of the edits and of the inserted codes.
#[derive(Clone, Copy)]
pub struct Edited<'a> {
    pub table: &'a [u8],
    pub old: &'a [u32],
    pub edits: &'a [u32],
    pub codes: &'a [u32],
}

// One number, of four bytes.
pub fn read_number() -> Result<u32, Malformed>
    ensures { IfOk result (λ n. n ≤ 4294967295) }
{
    let mut bytes = [0u8; 4];
    if io::read_full(0, &mut bytes) < 4 {
        return Err(Malformed);
    }
    Ok(u32::from_be_bytes(bytes))
}

// The kind that a letter stands for, with the number of times behind it where there is one.
fn kind_of(letter: u8) -> Result<Kind, Malformed> {
    match letter {
        b'T' => Ok(Kind::Table { named: false }),
        b'C' => Ok(Kind::Table { named: true }),
        b'R' => Ok(Kind::Read { times: 1 }),
        b'N' => Ok(Kind::Read {
            times: read_number()?,
        }),
        b'U' => Ok(Kind::Update { times: 1 }),
        b'V' => Ok(Kind::Update {
            times: read_number()?,
        }),
        b'L' => Ok(Kind::List),
        _ => Err(Malformed),
    }
}

// What the next case is; none at the input's end.
pub fn read_kind() -> Result<Option<Kind>, Malformed> {
    let mut letter = [0u8; 1];
    if io::read_full(0, &mut letter) == 0 {
        return Ok(None);
    }
    Ok(Some(kind_of(letter[0])?))
}

// A count that may not exceed a limit.
pub fn read_count(most: usize) -> Result<usize, Malformed>
    ensures { IfOk result (λ n. n ≤ most) }
{
    let n = read_number()? as usize;
    if n > most {
        return Err(Malformed);
    }
    Ok(n)
}

// A count and as many bytes.
pub fn read_bytes(row: &mut [u8]) -> Result<&[u8], Malformed>
    ensures { IfOk result (λ part. length part.now ≤ length row.old) }
{
    let n = read_count(row.len())?;
    if io::read_full(0, &mut row[..n]) < n {
        return Err(Malformed);
    }
    Ok(&row[..n])
}

// The next words of the input, at most 256.
fn read_some(row: &mut [u32]) -> Result<(), Malformed>
    requires { length row.old ≤ 256 }
{
    let mut bytes = [0u8; 1024];
    let m = 4 * row.len();
    if io::read_full(0, &mut bytes[..m]) < m {
        return Err(Malformed);
    }
    for (word, b) in row.iter_mut().zip(bytes.chunks_exact(4)) {
        *word = u32::from_be_bytes([b[0], b[1], b[2], b[3]]);
    }
    Ok(())
}

// As many words as the row has.
fn read_row(row: &mut [u32]) -> Result<(), Malformed> {
    for part in row.chunks_mut(256) {
        read_some(part)?;
    }
    Ok(())
}

// A count and as many words.
pub fn read_words(row: &mut [u32]) -> Result<&[u32], Malformed>
    ensures { IfOk result (λ part. length part.now ≤ length row.old) }
{
    let n = read_count(row.len())?;
    read_row(&mut row[..n])?;
    Ok(&row[..n])
}

// The rows of an update.
pub fn read_edited<'a>(
    table: &'a mut [u8],
    old: &'a mut [u32],
    edits: &'a mut [u32],
    codes: &'a mut [u32],
) -> Result<Edited<'a>, Malformed>
    ensures { IfOk result (λ e. (length e.table.now ≤ length table.old)
        × (length e.old.now ≤ length old.old)
        × (length e.edits.now ≤ length edits.old)
        × (length e.codes.now ≤ length codes.old)) }
{
    Ok(Edited {
        table: read_bytes(table)?,
        old: read_words(old)?,
        edits: read_words(edits)?,
        codes: read_words(codes)?,
    })
}
