use crate::sinks::pair;
use ad_io::{SureSink, Wrote};
use ad_write::keywords::words_of_the_grammar;
use ad_write::{document_length, write_foot, write_head, write_line};
use std::test::Fail;

#[test]
fn parts_of_a_document(rt: HostRuntime) -> Result<(), Fail> {
    let noted = pair(rt.alloc())?;
    let mut parts = SureSink::new(rt.alloc(), 100)?;
    assert!(rt; write_head(&mut parts) == Wrote::All);
    assert!(rt; write_line(&noted, &mut parts) == Wrote::All);
    assert!(rt; write_foot(&mut parts) == Wrote::All);
    assert!(rt; parts.bytes() == b"Ontology(\nSubClassOf(<u:A> <u:B>)\n)\n".as_slice());
    Ok(())
}

#[test]
fn laws() {
    document_length();
    words_of_the_grammar();
}
