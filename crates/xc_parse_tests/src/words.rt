use std::test::Fail;
use xc_lex::lex;
use xc_raw::{Access, Literal, Step, Word, word_of};

#[test]
fn words_of_a_text(rt: HostRuntime) -> Result<(), Fail> {
    let source = b"goto x->y++ \"s\"\n#pragma p";
    let tokens = lex(rt.alloc(), source).ok().ok_or("tokens")?;
    let wanted = [
        Word::Foreign,
        Word::Name,
        Word::Access(Access::Arrow),
        Word::Name,
        Word::Step(Step::Increment),
        Word::Literal(Literal::Text),
        Word::Pragma,
    ];
    let mut all = tokens.len() == wanted.len();
    for (token, word) in tokens.as_slice().iter().zip(wanted.iter()) {
        all = all && word_of(source, *token) == *word;
    }
    assert!(rt; all);
    Ok(())
}
