use rv_asm::{AsmFault, AsmFaultKind, assemble};
use std::test::Fail;

#[test]
fn assembles_a_loop(rt: HostRuntime) -> Result<(), Fail> {
    let words = assemble(
        rt.alloc(),
        b"loop: addi x1, x1, -1 # one less\r\n  bne x1,x0 , loop\n",
    )
    .ok()
    .ok_or("the text has no fault")?;
    assert_eq!(rt; words.as_slice(), [0xfff0_8093, 0xfe00_9ee3].as_slice());
    Ok(())
}

#[test]
fn loads_numbers(rt: HostRuntime) -> Result<(), Fail> {
    let words = assemble(
        rt.alloc(),
        b"li x5, 2048\nret\nli x5, 4294967295\nli x5, 4096\nli t0, 0x12345fff\nnop\n.word -1",
    )
    .ok()
    .ok_or("the text has no fault")?;
    assert_eq!(rt;
        words.as_slice(),
        [
            0x0000_12b7,
            0x8002_8293,
            0x0000_8067,
            0xfff0_0293,
            0x0000_12b7,
            0x1234_62b7,
            0xfff2_8293,
            0x0000_0013,
            0xffff_ffff,
        ]
        .as_slice()
    );
    Ok(())
}

#[test]
fn reports_the_first_error(rt: HostRuntime) {
    let cases: [(&[u8], usize, AsmFaultKind); 9] = [
        (b"a: nop\na: nop", 2, AsmFaultKind::LabelTwice),
        (b"a: nop\na: nop\nj a", 3, AsmFaultKind::UnknownName),
        (b"jal x0, far", 1, AsmFaultKind::UnknownLabel),
        (b"lw x1, 2048(x2)", 1, AsmFaultKind::OutOfRange),
        (b"addi x1, x2", 1, AsmFaultKind::BadOperand),
        (b"beq x1, x2, 3", 1, AsmFaultKind::OutOfRange),
        (b"addi x1, x2, 5000, x3", 1, AsmFaultKind::BadOperand),
        (b"nop\n\nadd\x7f x1, x2, x3", 3, AsmFaultKind::BadText),
        (b"2a: nop", 1, AsmFaultKind::BadText),
    ];
    for (text, line, kind) in cases {
        let fault = assemble(rt.alloc(), text).err();
        assert!(rt; fault == Some(AsmFault { line, kind }));
    }
}

#[test]
fn numbers_the_faults(rt: HostRuntime) {
    assert_eq!(rt; AsmFaultKind::BadText.number(), 1);
    assert_eq!(rt; AsmFaultKind::NoMemory.number(), 8);
}
