// Six NAND gates on five inputs, known as c17, with both faults of each of its eleven lines. What is expected is
// what boards/reference.py says.
use crate::encoding::{fault, gate, input, output};
use boards::board::Board;
use devices::labels::labels;
use findings::report::report;
use std::alloc::{AllocError, Global};
use std::test::Fail;

// The five inputs and six gates.
fn lines(file: &mut Vec<u8>) -> Result<(), AllocError> {
    for _ in 0..5 {
        input(file)?;
    }
    gate(file, 3, &[0, 2])?;
    gate(file, 3, &[2, 3])?;
    gate(file, 3, &[1, 6])?;
    gate(file, 3, &[6, 4])?;
    gate(file, 3, &[5, 7])?;
    gate(file, 3, &[7, 8])
}

fn c17(heap: Global) -> Result<Board, Fail> {
    let mut file = Vec::new(heap);
    lines(&mut file)?;
    output(&mut file, 9)?;
    output(&mut file, 10)?;
    for line in 0..11u16 {
        fault(&mut file, 0, line)?;
        fault(&mut file, 1, line)?;
    }
    let mut board = Board::new(heap)?;
    board.read(&file)?;
    Ok(board)
}

#[test]
fn labels_all(rt: HostRuntime) -> Result<(), Fail> {
    let board = c17(rt.alloc())?;
    let mut list = [99u16; 24];
    labels(&board, &mut list)?;
    assert_eq!(rt;
        list,
        [
            0, 1, 2, 3, 4, 5, 6, 7, 8, 9, 10, 11, 1, 13, 7, 15, 3, 17, 9, 19, 11, 21, 17, 99,
        ]
    );
    Ok(())
}

#[test]
fn reports(rt: HostRuntime) -> Result<(), Fail> {
    let board = c17(rt.alloc())?;
    let text = report(rt.alloc(), &board)?;
    assert_eq!(rt;
        text.as_str(),
        "0 0 -\n1 1 10100\n2 2 00100\n3 3 01000\n\
         4 4 00000\n5 5 10100\n6 6 10000\n7 7 01110\n\
         8 8 01100\n9 9 00001\n10 10 00000\n11 11 00000\n\
         12 1 10100\n13 13 01000\n14 7 01110\n15 15 00000\n\
         16 3 01000\n17 17 00000\n18 9 00001\n19 19 01000\n\
         20 11 00000\n21 21 01000\n22 17 00000\n"
    );
    Ok(())
}
