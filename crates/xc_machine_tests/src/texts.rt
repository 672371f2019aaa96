use std::alloc::Global;
use std::test::Fail;
use xc_isa::Code;
use xc_isa_text::{AsmFault, print, read};

/// Reads a text, which is short.
#[tactic(auto, using(xc_text_lines::proofs::Laws::few_lines))]
fn read_short(alloc: Global, text: &str) -> Result<Result<Code, AsmFault>, Fail> {
    if text.len() < 4096 {
        Ok(read(alloc, text.as_bytes()))
    } else {
        Err("a short text".into())
    }
}

/// The first bad line of a text.
fn bad_line(alloc: Global, text: &str) -> Result<Option<u32>, Fail> {
    match read_short(alloc, text)? {
        Err(AsmFault::Line(line)) => Ok(Some(line)),
        Err(AsmFault::NoMemory) => Err("memory".into()),
        Ok(code) => {
            drop(code);
            Ok(None)
        }
    }
}

/// A text, read and printed.
fn printed(alloc: Global, text: &str) -> Result<Vec<u8>, Fail> {
    let code = read_short(alloc, text)?.ok().ok_or("assembly")?;
    let out = print(alloc, &code);
    drop(code);
    Ok(out?)
}

const E1: &str =
    "xmtasm 1\nglobal 1\ncells 1 0 full\nformat 256c640a\ncode\nli 24 14\nprint 0\nquit\n";

const E2: &str = "xmtasm 1\ncode\nli 1 3\nnewseg 2 1\nquit\n";

const E3: &str = "xmtasm 1\nglobal 1\ncells 1 0 empty\ncode\nli 1 4294967296\nldfe 2 1 0\nquit\n";

/// Each instruction, and each kind of line with its greatest numbers.
const ALL: &str = "xmtasm 1\n\
global 4294967295\ncells 4294967294 18446744073709551615 full\ncells 1 18446744073709551615 empty\n\
global 3\ncells 1 7 empty\ncells 1 7 full\ncells 1 8 full\n\
format -\nformat 2525ff00256c6c75\n\
loop 0 1 2 3 4\nloop 0 4294967295 0 0 0\nloop 4294967295 0 0 0 4294967295\n\
code\n\
li 31 -9223372036854775808\nli 0 9223372036854775807\nli 1 0\n\
addi 1 2 -1\n\
add 1 2 3\nsub 1 2 3\nmul 1 2 3\nand 1 2 3\nor 1 2 3\nxor 1 2 3\nshl 1 2 3\nshr 1 2 3\nsar 1 2 3\n\
div 1 2 3\ndivu 1 2 3\nrem 1 2 3\nremu 1 2 3\n\
slt 1 2 3\nsltu 1 2 3\nseq 1 2 3\n\
padd 1 2 3 4294967295\npsub 1 2 3\nbound 1 4294967295\n\
ld 1 2 4294967295\nldfe 1 2 3\nldff 1 2 3\n\
st 1 2 4294967295\nstef 1 2 3\nstff 1 2 3\n\
purge 1 4294967295\nfadd 1 2 4294967295 3\n\
newseg 1 2\nfree 31\n\
jmp 4294967295\nbz 1 2\nbnz 1 2\njal 31 2\njr 31\n\
create 1 2 3\nquit\nprint 4294967295\ntrap 0\n";

#[test]
fn texts_are_printed_again(rt: HostRuntime) -> Result<(), Fail> {
    for text in [E1, E2, E3, ALL, "xmtasm 1\ncode\n"] {
        let out = printed(rt.alloc(), text)?;
        let same = out.as_slice() == text.as_bytes();
        drop(out);
        assert!(rt; same, "{text}");
    }
    Ok(())
}

/// Texts of lines, and the first bad line of each.
const BAD: [(&str, u32); 60] = [
    // the head
    ("", 1),
    ("xmtasm 1", 1),
    ("xmtasm 2\n", 1),
    ("xmtasm 1 \n", 1),
    ("\n", 1),
    ("xmtasm 1\n", 2),
    // globals
    ("xmtasm 1\nglobal 0\n", 2),
    ("xmtasm 1\nglobal 4294967296\n", 2),
    ("xmtasm 1\nglobal 05\n", 2),
    ("xmtasm 1\nglobal\n", 2),
    ("xmtasm 1\nglobal 5\ncode\n", 3),
    ("xmtasm 1\nglobal 5\nglobal 5\n", 3),
    ("xmtasm 1\nglobal 5\ncells 3 0 full\nformat 00\n", 4),
    ("xmtasm 1\nglobal 5\ncells 3 0 full\nloop 0 0 0 0 0\n", 4),
    ("xmtasm 1\nglobal 5\ncells 3 0 full\n", 4),
    ("xmtasm 1\nglobal 5\ncells 6 0 full\n", 3),
    ("xmtasm 1\nglobal 5\ncells 3 0 full\ncells 3 0 empty\n", 4),
    ("xmtasm 1\nglobal 5\ncells 0 0 full\n", 3),
    ("xmtasm 1\nglobal 5\ncells 3 0 full\ncells 2 0 full\n", 4),
    ("xmtasm 1\nglobal 5\ncells 5 18446744073709551616 full\n", 3),
    ("xmtasm 1\nglobal 5\ncells 5 -1 full\n", 3),
    ("xmtasm 1\nglobal 5\ncells 5 0 half\n", 3),
    ("xmtasm 1\nglobal 5\ncells 5 0\n", 3),
    ("xmtasm 1\ncells 1 0 full\n", 2),
    ("xmtasm 1\nformat -\nglobal 1\n", 3),
    // formats
    ("xmtasm 1\nformat 256\n", 2),
    ("xmtasm 1\nformat 2A\n", 2),
    ("xmtasm 1\nformat\n", 2),
    ("xmtasm 1\nformat \n", 2),
    ("xmtasm 1\nformat 2573\n", 2),
    ("xmtasm 1\nformat 25\n", 2),
    ("xmtasm 1\nformat 00 00\n", 2),
    ("xmtasm 1\nloop 0 0 0 0 0\nformat 00\n", 3),
    // marks
    ("xmtasm 1\nloop 5 0 0 0 0\nloop 4 0 0 0 0\n", 3),
    ("xmtasm 1\nloop 5 0 0 0\n", 2),
    ("xmtasm 1\nloop 5 0 0 0 4294967296\n", 2),
    // where the instructions begin
    ("xmtasm 1\ncode 1\n", 2),
    ("xmtasm 1\nquit\n", 2),
    ("xmtasm 1\ncode\ncode\n", 3),
    // instructions
    ("xmtasm 1\ncode\nnop\n", 3),
    ("xmtasm 1\ncode\nQUIT\n", 3),
    ("xmtasm 1\ncode\nquit 0\n", 3),
    ("xmtasm 1\ncode\nquit\nadd 1 2 32\n", 4),
    ("xmtasm 1\ncode\nadd 01 2 3\n", 3),
    ("xmtasm 1\ncode\nadd 1 2\n", 3),
    ("xmtasm 1\ncode\nadd 1 2 3 4\n", 3),
    ("xmtasm 1\ncode\nadd 1  2 3\n", 3),
    ("xmtasm 1\ncode\nadd r1 2 3\n", 3),
    ("xmtasm 1\ncode\njmp 4294967296\n", 3),
    ("xmtasm 1\ncode\njmp -1\n", 3),
    ("xmtasm 1\ncode\nli 1 9223372036854775808\n", 3),
    ("xmtasm 1\ncode\nli 1 -9223372036854775809\n", 3),
    ("xmtasm 1\ncode\nli 1 -0\n", 3),
    ("xmtasm 1\ncode\nli 1 007\n", 3),
    ("xmtasm 1\ncode\nli 1 +7\n", 3),
    // after the end
    ("xmtasm 1\ncode\nquit\n\n", 4),
    ("xmtasm 1\ncode\nquit\nquit", 4),
    ("xmtasm 1\ncode\nquit\r\n", 3),
    ("xmtasm 1\ncode\nquit\n ", 4),
    ("xmtasm 1\ncode\n\n", 3),
];

#[test]
fn first_bad_lines(rt: HostRuntime) -> Result<(), Fail> {
    for (text, line) in BAD {
        let bad = bad_line(rt.alloc(), text)?;
        assert_eq!(rt; bad, Some(line), "{text}");
    }
    Ok(())
}
