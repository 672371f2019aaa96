use std::alloc::{AllocError, Global};
use std::test::Fail;
use xc_driver::compile;
use xc_isa::{Code, DivideOp, Emit, Instr, Reg, Test};
use xc_isa_streams::two_streams;

/// A loop whose exit is told once it is known.
fn looped(alloc: Global) -> Result<Vec<Instr>, AllocError> {
    let mut emit = Emit::new(alloc);
    let r1 = Reg::new(1);
    let test = emit.push(Instr::Branch(Test::Zero, r1, 0))?;
    emit.push(Instr::Addi(r1, r1, u64::MAX))?;
    emit.push(Instr::Jmp(test))?;
    let after = emit.position();
    emit.push(Instr::Quit)?;
    emit.patch(test, after);
    emit.finish().as_slice().to_vec(alloc)
}

#[test]
fn targets_are_told_later(rt: HostRuntime) -> Result<(), Fail> {
    let code = looped(rt.alloc())?;
    let fit = matches!(
        code.as_slice(),
        [
            Instr::Branch(Test::Zero, _, 3),
            Instr::Addi(_, _, u64::MAX),
            Instr::Jmp(0),
            Instr::Quit,
        ]
    );
    drop(code);
    assert!(rt; fit && size_of::<Instr>() <= 24);
    Ok(())
}

#[test]
fn two_streams_have_their_code(rt: HostRuntime) -> Result<(), Fail> {
    let code = two_streams(rt.alloc())?;
    let fit = code.globals.len() == 1 && code.instrs.len() == 10;
    drop(code);
    assert!(rt; fit);
    Ok(())
}

fn has_divu(instrs: &[Instr]) -> bool {
    for instr in instrs {
        if let Instr::Divide(DivideOp::Divu, _, _, _) = instr {
            return true;
        }
    }
    false
}

/// Whether the code of a text divides without a sign.
fn divides(alloc: Global, text: &str) -> Result<bool, Fail> {
    if text.len() > 1 << 20 {
        return Err("long".into());
    }
    let compiled = compile(alloc, text.as_bytes()).ok().ok_or("a code")?;
    let unsigned = has_divu(compiled.code.instrs.as_slice());
    drop(compiled);
    Ok(unsigned)
}

#[test]
fn an_unsigned_number_is_halved(rt: HostRuntime) -> Result<(), Fail> {
    let unsigned = divides(
        rt.alloc(),
        "unsigned x = 9; int main() { x /= 2; return 0; }",
    )?;
    let signed = divides(rt.alloc(), "int x = 9; int main() { x /= 2; return 0; }")?;
    assert!(rt; unsigned && !signed);
    Ok(())
}
