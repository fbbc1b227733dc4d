// Words of the data code against an independent model's.
use crate::rows::{ROWS, Row};
use codes::words::{BeyondReach, MendingCode, SendingCode};
use staircase::code::Staircase;
use staircase::data_code::DataCode;
use staircase::exponents::Exponents;
use staircase::shape::Shape;
use std::alloc::{AllocError, Global};
use std::process::Abort;
use std::test::Fail;

// The bits that a text of 0s and 1s stands for.
fn bits_of(heap: Global, text: &str) -> Result<Vec<bool>, AllocError> {
    text.as_bytes()
        .iter()
        .map(|digit| *digit == b'1')
        .collect(heap)
}

// The message's word is the message and its checks; it is mended to the message, and refused with its last bit turned.
fn check_row(rt: &impl Abort, heap: Global, code: &Staircase, row: &Row) -> Result<(), Fail> {
    let message = bits_of(heap, row.message)?;
    let checks = bits_of(heap, row.checks)?;
    assert!(rt; message.len() == code.message_length());
    let mut word = vec![in heap; false; code.word_length()]?;
    code.encode(&message, &mut word);
    assert!(rt; word.as_slice().starts_with(message.as_slice()));
    assert!(rt; word.as_slice().ends_with(checks.as_slice()));
    assert!(rt; word.len() == message.len() + checks.len());
    let mut mended = vec![in heap; false; message.len()]?;
    assert_eq!(rt; code.mend(&word, &mut mended), Ok(0));
    assert!(rt; mended.as_slice() == message.as_slice());
    if let Some(last) = word.last_mut() {
        *last = !*last;
    }
    assert_eq!(rt; code.mend(&word, &mut mended), Err(BeyondReach));
    Ok(())
}

#[test]
fn words_of_the_model(rt: HostRuntime) -> Result<(), Fail> {
    let mut code = Staircase::new(rt.alloc())?;
    for row in &ROWS {
        let shape = Shape::new(row.lift, row.rows, row.columns).ok_or("no shape")?;
        code.fill(Exponents::new(shape, row.exponents)?);
        check_row(&rt, rt.alloc(), &code, row)?;
    }
    Ok(())
}
