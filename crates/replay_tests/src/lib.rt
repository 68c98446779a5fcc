#![tactic(auto)]

// Tables of cases: schedules, and traces with their listings.
#[cfg(test)]
mod tests {
    use listing::whole::list_trace;
    use schedule::Schedule;
    use schedule::refusal::ScheduleRefusal;
    use schedule::round_robin::RoundRobin;
    use schedule::slot_list::SlotList;
    use std::alloc::Global;
    use std::array;
    use std::process::Abort;
    use std::test::Fail;

    // The next owners are these.
    fn owners<S: Schedule>(rt: &impl Abort, schedule: &mut S, expected: &[usize]) {
        for owner in expected {
            assert_eq!(rt; schedule.next_owner(), *owner);
        }
    }

    #[test]
    fn round_robins(rt: HostRuntime) -> Result<(), Fail> {
        assert!(rt; RoundRobin::new(0).is_err());
        assert!(rt; RoundRobin::new(17).is_err());
        assert!(rt; RoundRobin::new(usize::MAX).is_err());
        let mut one = RoundRobin::new(1)?;
        assert_eq!(rt; one.period(), 1);
        owners(&rt, &mut one, &[0, 0, 0]);
        let mut three = RoundRobin::new(3)?;
        owners(&rt, &mut three, &[0, 1, 2, 0, 1, 2, 0]);
        let sixteen = RoundRobin::new(16)?;
        assert_eq!(rt; sixteen.boards(), 16);
        assert_eq!(rt; sixteen.period(), 16);
        Ok(())
    }

    #[test]
    fn slot_lists(rt: HostRuntime) {
        let mut list = SlotList::board_zero();
        assert_eq!(rt; list.boards(), 1);
        owners(&rt, &mut list, &[0, 0]);
        assert_eq!(rt; list.replace(3, &[0, 1, 0, 2]), Ok(()));
        assert_eq!(rt; list.boards(), 3);
        assert_eq!(rt; list.period(), 4);
        owners(&rt, &mut list, &[0, 1, 0, 2, 0, 1]);
        let refused = [
            (list.replace(0, &[]), 1),
            (list.replace(17, &[0]), 1),
            (list.replace(3, &[]), 2),
            (list.replace(3, &[9; 65]), 2),
            (list.replace(3, &[0, 3]), 3),
            (list.replace(3, &[0, 1, 0]), 4),
        ];
        for (answer, number) in refused {
            assert_eq!(rt; answer.map_err(ScheduleRefusal::number), Err(number));
        }
        // A refusal leaves the list where it was.
        owners(&rt, &mut list, &[0, 2, 0, 1]);
    }

    // Boards 0 to 15, four times.
    fn four_rounds() -> [u8; 64] {
        array::from_fn(|i| (i % 16) as u8)
    }

    #[test]
    fn longest_list(rt: HostRuntime) {
        let mut list = SlotList::board_zero();
        assert_eq!(rt; list.replace(16, &four_rounds()), Ok(()));
        assert_eq!(rt; list.period(), 64);
        for i in 0..128 {
            assert_eq!(rt; list.next_owner(), i % 16);
        }
    }

    fn ends(rt: &impl Abort, alloc: Global, trace: &str, expected: &str) -> Result<(), Fail> {
        let text = list_trace(alloc, trace.as_bytes())?;
        assert_eq!(rt; text.as_str(), expected, "{trace}");
        Ok(())
    }

    fn lists(rt: &impl Abort, alloc: Global, cases: &[(&str, &str)]) -> Result<(), Fail> {
        for (trace, expected) in cases {
            ends(rt, alloc, trace, expected)?;
        }
        Ok(())
    }

    #[test]
    fn letters_and_words(rt: HostRuntime) -> Result<(), Fail> {
        let cases = [
            ("", "fault 1 2\n"),
            ("\n", "fault 1 2\n"),
            ("F 2 1 A", "fault 1 1\n"),
            ("F 2 1 A\n", ""),
            ("F 2 1 A\nW 1", "fault 2 1\n"),
            ("F 2 1 A\nW 1\nW 1", "0 0 idle -\nfault 3 1\n"),
            ("F 2 1 A\n\n", "fault 2 2\n"),
            ("W 1\n", "fault 1 2\n"),
            ("O 0\n", "fault 1 2\n"),
            ("f 2 1 A\n", "fault 1 2\n"),
            ("FF 2 1 A\n", "fault 1 2\n"),
            (" F 2 1 A\n", "fault 1 2\n"),
            ("F 2 1 A\nF 2 1 A\n", "fault 2 2\n"),
            ("F 2 1 A\nF\n", "fault 2 2\n"),
            ("F 2 1 A\nW 1\nO 0 1\n", "0 0 idle -\nfault 3 2\n"),
            ("F 2 1 A\nO 0 1\nO 0 1\n", "fault 3 2\n"),
            ("F 2 1 A\nX\n", "fault 2 2\n"),
            ("F 2 1 A\nW1\n", "fault 2 2\n"),
            ("F\n", "fault 1 3\n"),
            ("F \n", "fault 1 3\n"),
            ("F 2 1\n", "fault 1 3\n"),
            ("F 2 1 A \n", "fault 1 3\n"),
            ("F 2  1 A\n", "fault 1 3\n"),
            ("F 2 1 A\nW\n", "fault 2 3\n"),
            ("F 2 1 A\nW 1 \n", "fault 2 3\n"),
            ("F 2 1 A\nW  1\n", "fault 2 3\n"),
            ("F 2 1 A\nW 1 2\n", "fault 2 3\n"),
            ("F 2 1 A\nW \n", "fault 2 4\n"),
        ];
        lists(&rt, rt.alloc(), &cases)
    }

    #[test]
    fn numbers_and_fields(rt: HostRuntime) -> Result<(), Fail> {
        let cases = [
            ("F 02 1 A\n", "fault 1 4\n"),
            ("F x 99 A\n", "fault 1 4\n"),
            ("F 2 1 D\n", "fault 1 4\n"),
            ("F 2 1 a\n", "fault 1 4\n"),
            ("F 2 1 1\n", "fault 1 4\n"),
            ("F 2 1 AA\n", "fault 1 4\n"),
            ("F A 1 A\n", "fault 1 4\n"),
            ("F +2 1 A\n", "fault 1 4\n"),
            ("F 256 1 A\n", "fault 1 5\n"),
            ("F 2 0 A\n", "fault 1 5\n"),
            ("F 2 65 A\n", "fault 1 5\n"),
            ("F 0 65 A\n", "fault 1 5\n"),
            ("F 18446744073709551616 1 A\n", "fault 1 5\n"),
            (
                "F 99999999999999999999999999999999999999999999 1 A\n",
                "fault 1 5\n",
            ),
            ("F 0 1 A\n", "fault 1 6 1\n"),
            ("F 17 1 B\n", "fault 1 6 1\n"),
            ("F 255 64 C\n", "fault 1 6 1\n"),
            ("F 16 64 C\nW 1\n", "0 0 idle -\n"),
            ("F 2 1 A\nW 0\n", "fault 2 5\n"),
            ("F 2 1 A\nW 1000\n", "fault 2 5\n"),
            ("F 2 1 A\nW 01\n", "fault 2 4\n"),
            ("F 2 1 A\nW A\n", "fault 2 4\n"),
            ("F 2 1 A\nW -1\n", "fault 2 4\n"),
        ];
        lists(&rt, rt.alloc(), &cases)
    }

    #[test]
    fn slot_list_lines(rt: HostRuntime) -> Result<(), Fail> {
        let cases = [
            (
                "F 3 1 A\nO 0 1 0 2\nW 5\n",
                "0 0 idle -\n1 1 idle -\n2 0 idle -\n3 2 idle -\n4 0 idle -\n",
            ),
            (
                "F 3 1 A\nW 4\n",
                "0 0 idle -\n1 1 idle -\n2 2 idle -\n3 0 idle -\n",
            ),
            (
                "F 3 1 A\nW 1\nW 2\n",
                "0 0 idle -\n1 1 idle -\n2 2 idle -\n",
            ),
            ("F 1 1 A\nO\n", "fault 2 6 2\n"),
            ("F 1 1 A\nO \n", "fault 2 4\n"),
            ("F 1 1 A\nO 0 x\n", "fault 2 4\n"),
            ("F 1 1 A\nO 256 x\n", "fault 2 4\n"),
            ("F 1 1 A\nO 256 0\n", "fault 2 5\n"),
            ("F 1 1 A\nO 255\n", "fault 2 6 3\n"),
            ("F 3 1 A\nO 0 3\n", "fault 2 6 3\n"),
            ("F 3 1 A\nO 0 1 0\n", "fault 2 6 4\n"),
            ("F 1 1 A\nO 0  0\n", "fault 2 4\n"),
        ];
        lists(&rt, rt.alloc(), &cases)
    }

    // The example of the documentation: a store, and a load that takes the line from its holder.
    #[test]
    fn documented_run(rt: HostRuntime) -> Result<(), Fail> {
        let cases = [(
            "F 2 1 A\nS 0 0 7 0\nW 1\nL 1 0\nW 3\nC 0\nC 1\n",
            "S 0 0 wait\n0 0 GetM+ 0\nL 1 0 wait\n1 1 GetS 0\n2 0 PutM 0\n3 1 Data 0\nC 0 7 1\nC 1 7 3\n",
        )];
        lists(&rt, rt.alloc(), &cases)
    }

    // Each call's refusals, in the order of their numbers.
    #[test]
    fn calls_and_refusals(rt: HostRuntime) -> Result<(), Fail> {
        let cases = [
            (
                "F 2 2 A\nL 2 9\nL 0 2\nL 0 0\nL 0 1\n",
                "L 2 refused 5\nL 0 refused 6\nL 0 0 wait\nL 0 refused 7\n",
            ),
            (
                "F 2 2 A\nS 2 9 1 5\nS 0 2 1 5\nS 0 0 1 5\nW 2\nL 0 0\nS 0 0 1 5\nC 0\n",
                "S 2 refused 5\nS 0 refused 6\nS 0 0 wait\n0 0 GetM+ 0\n1 1 idle -\nL 0 refused 7\nS 0 refused 7\nC 0 1 1\n",
            ),
            (
                "F 2 2 A\nR 2 9\nR 0 2\nR 0 0\nS 0 0 3 0\nW 1\nC 0\nR 0 0\nR 0 0\nW 2\nR 0 0\n",
                "R 2 refused 5\nR 0 refused 6\nR 0 refused 10\nS 0 0 wait\n0 0 GetM+ 0\nC 0 3 1\nR 0 0 ok\nR 0 refused 10\n1 1 idle -\n2 0 PutM 0\nR 0 refused 10\n",
            ),
            (
                "F 1 2 A\nK 2 0 0\nK 0 1 2\nK 0 0 9\nS 0 0 1 0\nS 0 0 1 9\nW 1\nC 0\nK 0 0 3\nK 0 9 0\n",
                "K 2 refused 6\nK 0 ok\nK 0 refused 9\nS 0 refused 9\nS 0 refused 9\n0 0 idle -\nC 0 refused 12\nK 0 refused 9\nK 0 refused 9\n",
            ),
            (
                "F 2 1 A\nC 2\nC 0\nL 0 0\nC 0\nW 1\nC 0\nC 0\n",
                "C 2 refused 5\nC 0 refused 12\nL 0 0 wait\nC 0 refused 14\n0 0 GetS+ 0\nC 0 0 1\nC 0 refused 12\n",
            ),
            (
                "F 1 1 A\nL 65535 65535\nS 65535 65535 18446744073709551615 4294967295\nK 65535 0 0\nC 65535\n",
                "fault 2 5\n",
            ),
            (
                "F 1 1 A\nS 0 0 18446744073709551615 0\nW 1\nC 0\nL 0 0\nL 65536 0\n",
                "S 0 0 wait\n0 0 GetM+ 0\nC 0 18446744073709551615 1\nL 0 0 hit 18446744073709551615\nfault 6 5\n",
            ),
        ];
        lists(&rt, rt.alloc(), &cases)
    }

    // Two sharers ask for the line at once: the one that loses the race asks again, and stores into what it then owns.
    #[test]
    fn lost_upgrade(rt: HostRuntime) -> Result<(), Fail> {
        let cases = [(
            "F 2 1 A\nL 0 0\nW 1\nL 1 0\nW 1\nC 0\nC 1\nS 0 0 5 0\nS 1 0 6 0\nW 2\nW 4\nC 0\nC 1\nL 0 0\nL 1 0\nW 4\nC 0\nC 1\n",
            "L 0 0 wait\n0 0 GetS+ 0\nL 1 0 wait\n1 1 GetS+ 0\nC 0 0 1\nC 1 0 1\nS 0 0 wait\nS 1 0 wait\n2 0 Upg 0\n3 1 GetM 0\n4 0 PutM 0\n5 1 Data 0\n6 0 idle -\n7 1 idle -\nC 0 5 1\nC 1 6 4\nL 0 0 wait\nL 1 0 hit 6\n8 0 GetS 0\n9 1 PutM 0\n10 0 Data 0\n11 1 idle -\nC 0 6 3\nC 1 refused 12\n",
        )];
        lists(&rt, rt.alloc(), &cases)
    }

    // Three boards store to one line by turns, and each is served.
    #[test]
    fn contended_line(rt: HostRuntime) -> Result<(), Fail> {
        let cases = [(
            "F 3 1 B\nS 0 0 1 0\nS 1 0 2 0\nS 2 0 3 0\nW 12\nC 0\nC 1\nC 2\nL 0 0\nW 9\nC 0\n",
            "S 0 0 wait\nS 1 0 wait\nS 2 0 wait\n0 0 GetM+ 0\n1 1 GetM 0\n2 2 GetM 0\n3 0 PutM 0\n4 1 Data 0\n5 2 idle -\n6 0 idle -\n7 1 PutM 0\n8 2 Data 0\n9 0 idle -\n10 1 idle -\n11 2 idle -\nC 0 1 1\nC 1 2 5\nC 2 3 9\nL 0 0 wait\n12 0 GetS 0\n13 1 idle -\n14 2 PutM 0\n15 0 Data 0\n16 1 idle -\n17 2 idle -\n18 0 idle -\n19 1 idle -\n20 2 idle -\nC 0 3 4\n",
        )];
        lists(&rt, rt.alloc(), &cases)
    }

    // A line is replaced while another board asks for it, and while nobody does.
    #[test]
    fn write_backs(rt: HostRuntime) -> Result<(), Fail> {
        let cases = [
            (
                "F 2 1 A\nS 0 0 9 0\nW 1\nC 0\nR 0 0\nL 1 0\nW 4\nC 1\n",
                "S 0 0 wait\n0 0 GetM+ 0\nC 0 9 1\nR 0 0 ok\nL 1 0 wait\n1 1 GetS 0\n2 0 PutM 0\n3 1 Data 0\n4 0 idle -\nC 1 9 3\n",
            ),
            (
                "F 2 1 A\nS 0 0 9 0\nW 1\nC 0\nR 0 0\nL 0 0\nW 4\nC 0\nL 0 0\nW 1\n",
                "S 0 0 wait\n0 0 GetM+ 0\nC 0 9 1\nR 0 0 ok\nL 0 0 hit 9\n1 1 idle -\n2 0 PutM 0\n3 1 idle -\n4 0 idle -\nC 0 refused 12\nL 0 0 wait\n5 1 idle -\n",
            ),
        ];
        lists(&rt, rt.alloc(), &cases)
    }

    // The listing does not depend on the kind of memory.
    #[test]
    fn kinds_alike(rt: HostRuntime) -> Result<(), Fail> {
        let alloc = rt.alloc();
        for first in ["F 3 5 A\n", "F 3 5 B\n", "F 3 5 C\n"] {
            let trace = format!(in alloc;
                "{first}S 0 4 11 0\nS 1 0 12 0\nL 2 4\nW 9\nC 0\nC 1\nC 2\nR 1 0\nW 3\nL 2 0\nL 0 4\nW 6\nC 2\nC 0\n",
            )?;
            ends(
                &rt,
                alloc,
                trace.as_str(),
                "S 0 4 wait\nS 1 0 wait\nL 2 4 wait\n0 0 GetM+ 4\n1 1 GetM+ 0\n2 2 GetS 4\n3 0 PutM 4\n4 1 idle -\n5 2 Data 4\n6 0 idle -\n7 1 idle -\n8 2 idle -\nC 0 11 1\nC 1 12 2\nC 2 11 6\nR 1 0 ok\n9 0 idle -\n10 1 PutM 0\n11 2 idle -\nL 2 0 wait\nL 0 4 hit 11\n12 0 idle -\n13 1 idle -\n14 2 GetS+ 0\n15 0 idle -\n16 1 idle -\n17 2 idle -\nC 2 12 3\nC 0 refused 12\n",
            )?;
        }
        Ok(())
    }

    #[test]
    fn long_lines_and_lists(rt: HostRuntime) -> Result<(), Fail> {
        let alloc = rt.alloc();
        // 200 bytes are a line, and 201 are not, whatever they are.
        let nines = "9".repeat(alloc, 198)?;
        let line = format!(in alloc; "W {nines}\n")?;
        ends(&rt, alloc, line.as_str(), "fault 1 2\n")?;
        let line = format!(in alloc; "W {nines}9\n")?;
        ends(&rt, alloc, line.as_str(), "fault 1 1\n")?;
        let line = format!(in alloc; "F 1 1 A\nW {nines}\n")?;
        ends(&rt, alloc, line.as_str(), "fault 2 5\n")?;
        // 64 entries are a list, and 65 are not.
        let zeros = " 0".repeat(alloc, 64)?;
        let list = format!(in alloc; "F 1 1 A\nO{zeros}\nW 1\n")?;
        ends(&rt, alloc, list.as_str(), "0 0 idle -\n")?;
        let list = format!(in alloc; "F 1 1 A\nO{zeros} 0\nW 1\n")?;
        ends(&rt, alloc, list.as_str(), "fault 2 6 2\n")
    }

    #[test]
    fn longest_traces(rt: HostRuntime) -> Result<(), Fail> {
        let alloc = rt.alloc();
        // 8 bytes, and 32,760 of lines with a fault in the first.
        let lines = "X\n".repeat(alloc, 16380)?;
        let longest = format!(in alloc; "F 1 1 A\n{lines}")?;
        assert_eq!(rt; longest.len(), 32768);
        ends(&rt, alloc, longest.as_str(), "fault 2 2\n")?;
        let longer = format!(in alloc; "F 1 1 A\n {lines}")?;
        assert_eq!(rt; longer.len(), 32769);
        ends(&rt, alloc, longer.as_str(), "fault 0 7\n")
    }
}
