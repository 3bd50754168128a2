//! What is read of files beside a whole table: the fields of a refused one, and a text at a block.

use super::*;

// The table of TWO_NAMES by another program: a longer header, bytes after the name, and no 0x1A at the end.
fn tolerated() -> [u8; 88] {
    let mut dbf = [b' '; 88];
    dbf[..65].copy_from_slice(&TWO_NAMES[..65]);
    dbf[8] = 0x42;
    dbf[37..43].copy_from_slice(b"XXXXXX");
    dbf[65] = 0;
    dbf[66..].copy_from_slice(&TWO_NAMES[65..87]);
    dbf
}

// Whether a file tells one field NAME of this kind and width, without decimals; or no fields at all, where none are wanted.
fn tells(alloc: Global, dbf: &[u8], told: Option<(u8, u8)>) -> Result<bool, AllocError> {
    let Some(fields) = told_fields(alloc, dbf)? else {
        return Ok(told.is_none());
    };
    let Some((kind, width)) = told else {
        return Ok(false);
    };
    Ok(match fields.as_slice() {
        [field] => {
            field.name.as_slice() == b"NAME".as_slice()
                && field.kind == kind
                && field.width == width
                && field.decimals == 0
        }
        _ => false,
    })
}

#[test]
fn fields_of_refused_tables(rt: HostRuntime) -> Result<(), Fail> {
    let cases: [(&[u8], Option<(u8, u8)>); 7] = [
        (&TWO_NAMES, Some((b'C', 10))),
        (&tolerated(), Some((b'C', 10))),
        // The header alone, and a byte less.
        (&TWO_NAMES[..65], Some((b'C', 10))),
        (&TWO_NAMES[..64], None),
        (&TWO_NAMES[..31], None),
        // A width that no field may have, and a list of fields without an end.
        (&changed(&[(48, 0)]), Some((b'C', 0))),
        (&changed(&[(8, 64)]), None),
    ];
    for (dbf, told) in cases {
        assert!(rt; tells(rt.alloc(), dbf, told)?);
    }
    Ok(())
}

// A file of memos whose second block has a text that is a byte too long.
fn long_memo(alloc: Global) -> Result<Vec<u8>, Fail> {
    let mut dbt = Vec::new(alloc);
    dbt.resize(512 + 65_536, b'a')?;
    Ok(dbt)
}

// Why there is no memo at a block, or nothing where there is one.
fn refusal_at(alloc: Global, dbt: &[u8], block: u64) -> Option<ImageFault> {
    read_memo(alloc, dbt, block).err()
}

#[test]
fn texts_at_blocks_are_refused(rt: HostRuntime) -> Result<(), Fail> {
    let long = long_memo(rt.alloc())?;
    for (length, block, fault) in [
        (66_048, 0, Some(ImageFault::MemoOutside)),
        (66_048, 1, Some(ImageFault::MemoTooLong)),
        (66_048, 130, Some(ImageFault::MemoOutside)),
        (66_048, u64::MAX, Some(ImageFault::MemoOutside)),
        (66_047, 1, None),
        (516, 1, None),
        (512, 1, Some(ImageFault::MemoOutside)),
        (1024, 2, Some(ImageFault::MemoOutside)),
        (1024, 3, Some(ImageFault::MemoOutside)),
    ] {
        let refusal = refusal_at(rt.alloc(), front(&long, length), block);
        assert!(rt; refusal == fault, "{length}, {block}");
    }
    Ok(())
}

// How many bytes the text of block 1 has.
fn length_of_first(alloc: Global, dbt: &[u8]) -> Option<usize> {
    match read_memo(alloc, dbt, 1) {
        Ok(text) => Some(text.as_slice().len()),
        Err(_) => None,
    }
}

#[test]
fn a_text_goes_on_to_the_files_end(rt: HostRuntime) -> Result<(), Fail> {
    let long = long_memo(rt.alloc())?;
    let lengths = [
        length_of_first(rt.alloc(), front(&long, 512 + 65_535)),
        length_of_first(rt.alloc(), front(&long, 516)),
    ];
    assert!(rt; lengths == [Some(65_535), Some(4)]);
    Ok(())
}
