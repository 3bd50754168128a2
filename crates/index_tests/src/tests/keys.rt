//! Keys of other lengths than an index has, and what is said where memory is refused.

use dbf_fields::{CHARACTER, DATE, Field, NUMBER, Schema};
use key_expr::*;
use ndx_index::NdxFault;
use std::alloc::Global;
use std::test::Fail;

// NAME of 10 characters, AGE of 3 digits, the date BORN.
fn people(alloc: Global) -> Result<Schema, Fail> {
    let fields = vec![in alloc;
        Field::new(alloc, b"NAME", CHARACTER, 10, 0)?,
        Field::new(alloc, b"AGE", NUMBER, 3, 0)?,
        Field::new(alloc, b"BORN", DATE, 8, 0)?,
    ]?;
    Ok(Schema::new(alloc, &fields)?)
}

// Whether Ada's record has a key by the expression of a text.
fn has_key(alloc: Global, text: &[u8], key: &[u8]) -> Result<bool, Fail> {
    let schema = people(alloc)?;
    let expr = KeyExpr::parse(alloc, text, &schema)?;
    let record = b" Ada Lovela 3618151210".as_slice();
    if record.len() != schema.record_length() {
        return Err("a record of another length".into());
    }
    Ok(expr.has_key(record, key))
}

#[test]
fn record_has_no_key_of_another_length(rt: HostRuntime) -> Result<(), Fail> {
    let cases: [(&[u8], &[u8], bool); 4] = [
        (b"NAME", b"Ada Lovela", true),
        (b"NAME", b"Ada Lovel", false),
        (b"STR(AGE,5)", b"   36", true),
        (b"STR(AGE,5)", b"", false),
    ];
    for (text, key, has) in cases {
        assert!(rt; has_key(rt.alloc(), text, key)? == has);
    }
    Ok(())
}

#[test]
fn keys_are_compared_byte_by_byte(rt: HostRuntime) -> Result<(), Fail> {
    let short = Key::new(b"AB");
    let long = Key::new(b"ABA");
    assert!(rt; short < long && Key::new(b"B") > long && Key::default() < short);
    assert!(rt; Key::new(b"AB") == short);
    assert!(rt; Key::new(&[b'x'; MAX_KEY_BYTES]).as_bytes().len() == 100);
    Ok(())
}

#[test]
fn want_of_memory_has_a_name_and_words(rt: HostRuntime) -> Result<(), Fail> {
    let alloc = rt.alloc();
    let (expression, index) = (ExprFault::NoMemory, NdxFault::NoMemory);
    let names = format!(in alloc; "{}, {}", expression.name(), index.name())?;
    let words = format!(in alloc; "{expression}, {index}, {}", index.words())?;
    assert!(rt; names.as_str() == "NoMemory, NoMemory");
    assert!(rt; words.as_str() == "out of memory, out of memory, out of memory");
    Ok(())
}
