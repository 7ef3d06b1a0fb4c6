// Small circuits on the board, run.
#![tactic(auto)]

#[cfg(test)]
mod tests {
    use board::{NoPower, Port, SpinError, power_on, spin};
    use words::ending::Ending;

    // No flip-flops and no gates, all pins low but for the lowest halt pin: done in the first cycle, and it stays so.
    #[test]
    fn halts_at_once(rt: HostRuntime) {
        let mut sheet = [0u32; 37];
        sheet[35] = 1;
        let state = &mut [0u8; 0];
        let mem = &mut [7u16; 65536];
        let out = &mut [0u16; 0];
        let work = &mut [0u8; 34];
        let none = spin(&sheet, 0, 0, state, mem, 5, &[], out, 0, work);
        assert_eq!(rt;
            none,
            Ok(Port {
                read: 5,
                taken: 0,
                sent: 0,
                halted: None
            })
        );
        let once = spin(&sheet, 0, 0, state, mem, 5, &[], out, 1, work);
        assert_eq!(rt;
            once,
            Ok(Port {
                read: 7,
                taken: 0,
                sent: 0,
                halted: Some(Ending::Done)
            })
        );
        let often = spin(&sheet, 0, 0, state, mem, 5, &[], out, 999, work);
        assert_eq!(rt;
            often,
            Ok(Port {
                read: 7,
                taken: 0,
                sent: 0,
                halted: Some(Ending::Done)
            })
        );
    }

    // Each cycle takes a word of the tape and puts it out: past the tape's end that is 0, and nothing is taken.
    #[test]
    fn copies_the_tape(rt: HostRuntime) {
        let mut sheet = [0u32; 37];
        sheet[16] = 18;
        sheet[17] = 19;
        sheet[19] = 21;
        sheet[33] = 1;
        sheet[34] = 1;
        let tape = [9, 11];
        let state = &mut [0u8; 0];
        let mem = &mut [0u16; 65536];
        let out = &mut [3u16; 5];
        let work = &mut [0u8; 40];
        let four = spin(&sheet, 0, 0, state, mem, 0, &tape, out, 4, work);
        assert_eq!(rt;
            four,
            Ok(Port {
                read: 0,
                taken: 2,
                sent: 4,
                halted: None
            })
        );
        assert_eq!(rt; *out, [9, 11, 0, 0, 3]);
        let six = spin(&sheet, 0, 0, state, mem, 0, &tape, out, 6, work);
        assert_eq!(rt; six, Err(SpinError::NoOut));
    }

    // Two flip-flops that change places, and a store at place 0 in each cycle: the word handed over is the one before it.
    #[test]
    fn latches_and_stores(rt: HostRuntime) {
        let mut sheet = [0u32; 41];
        sheet[0] = 5;
        sheet[2] = 35;
        sheet[3] = 34;
        sheet[4 + 16] = 34;
        sheet[4 + 32] = 1;
        let state = &mut [200u8; 2];
        let mem = &mut [40u16; 65536];
        let out = &mut [0u16; 0];
        let work = &mut [0u8; 36];
        let none = spin(&sheet, 2, 0, state, mem, 6, &[], out, 0, work);
        assert_eq!(rt;
            none,
            Ok(Port {
                read: 6,
                taken: 0,
                sent: 0,
                halted: None
            })
        );
        assert_eq!(rt; *state, [1, 1]);
        assert_eq!(rt; power_on(&sheet, 2, state), Ok(()));
        assert_eq!(rt; *state, [1, 0]);
        let first = spin(&sheet, 2, 0, state, mem, 0, &[], out, 1, work);
        assert_eq!(rt;
            first,
            Ok(Port {
                read: 40,
                taken: 0,
                sent: 0,
                halted: None
            })
        );
        assert_eq!(rt; *state, [0, 1]);
        assert_eq!(rt; mem[0], 1);
        let second = spin(&sheet, 2, 0, state, mem, 40, &[], out, 1, work);
        assert_eq!(rt;
            second,
            Ok(Port {
                read: 1,
                taken: 0,
                sent: 0,
                halted: None
            })
        );
        assert_eq!(rt; *state, [1, 0]);
        assert_eq!(rt; mem[0], 0);
    }

    // One flip-flop and one gate: too little work, and more gates than can be counted.
    #[test]
    fn needs_work(rt: HostRuntime) {
        let sheet = [1u32; 41];
        let many = 18446744073709551615;
        let state = &mut [9u8; 1];
        let mem = &mut [0u16; 65536];
        let out = &mut [0u16; 9];
        let work = &mut [8u8; 35];
        let few = spin(&sheet, 1, 1, state, mem, 0, &[], out, 1, work);
        assert_eq!(rt; few, Err(SpinError::FewWork));
        let fewer = spin(&sheet, 1, many, state, mem, 0, &[], out, 1, work);
        assert_eq!(rt; fewer, Err(SpinError::FewWork));
        assert_eq!(rt; *state, [9]);
        assert_eq!(rt; work[0], 8);
        assert_eq!(rt; work[34], 8);
    }

    // One flip-flop and one gate that feeds it: a sheet that is too short, a gate that is fed by itself, a next signal
    // that isn't there; and then all as it should be.
    #[test]
    fn needs_a_sheet(rt: HostRuntime) {
        let mut sheet = [1u32; 41];
        let short = [1u32; 40];
        let state = &mut [9u8; 1];
        let mem = &mut [0u16; 65536];
        let out = &mut [0u16; 9];
        let work = &mut [8u8; 36];
        let cut = spin(&short, 1, 1, state, mem, 0, &[], out, 1, work);
        assert_eq!(rt; cut, Err(SpinError::BadSheet));
        sheet[2] = 35;
        let fed = spin(&sheet, 1, 1, state, mem, 0, &[], out, 1, work);
        assert_eq!(rt; fed, Err(SpinError::BadSheet));
        sheet[2] = 34;
        sheet[3] = 36;
        let past = spin(&sheet, 1, 1, state, mem, 0, &[], out, 1, work);
        assert_eq!(rt; past, Err(SpinError::BadSheet));
        assert_eq!(rt; *state, [9]);
        assert_eq!(rt; work[0], 8);
        assert_eq!(rt; work[35], 8);
        sheet[3] = 35;
        let sound = spin(&sheet, 1, 1, state, mem, 0, &[], out, 1, work);
        assert_eq!(rt;
            sound,
            Ok(Port {
                read: 0,
                taken: 0,
                sent: 1,
                halted: Some(Ending::Full)
            })
        );
        assert_eq!(rt; *state, [0]);
    }

    // Too many flip-flop bytes, too little memory, no values at power on.
    #[test]
    fn needs_a_board(rt: HostRuntime) {
        let sheet = [1u32; 39];
        let one = &mut [9u8; 1];
        let two = &mut [9u8; 2];
        let mem = &mut [0u16; 65536];
        let little = &mut [0u16; 100];
        let out = &mut [0u16; 9];
        let work = &mut [8u8; 36];
        let bytes = spin(&sheet, 1, 0, two, mem, 0, &[], out, 1, work);
        assert_eq!(rt; bytes, Err(SpinError::BadSheet));
        let words = spin(&sheet, 1, 0, one, little, 0, &[], out, 1, work);
        assert_eq!(rt; words, Err(SpinError::BadSheet));
        assert_eq!(rt; power_on(&sheet, 1, two), Err(NoPower));
        assert_eq!(rt; power_on(&[], 1, one), Err(NoPower));
        assert_eq!(rt; *one, [9]);
        assert_eq!(rt; *two, [9, 9]);
    }
}
