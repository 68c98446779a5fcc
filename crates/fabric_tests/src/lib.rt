#![tactic(auto)]

// Scripts of calls, with the answers that the rules give.
#[cfg(test)]
mod tests {
    use copystate::states::State;
    use fabric::answer::{Collected, Reply, SlotReport};
    use fabric::fabric::Fabric;
    use memory::flat::FlatMemory;
    use memory::interface::LineMemory;
    use rules::deed::Deed;
    use rules::kind::{Kind, LastDeed};
    use rules::refusal::Refusal;
    use schedule::Schedule;
    use schedule::round_robin::RoundRobin;
    use schedule::slot_list::SlotList;
    use std::process::Abort;
    use std::test::Fail;

    #[derive(Clone, Copy)]
    enum Call {
        Load(usize, usize),
        // Board, line, word and key.
        Store(usize, usize, u64, u16),
        Replace(usize, usize),
        // Line, old key and new key.
        Guard(usize, u16, u16),
        Collect(usize),
        Slot,
        // A board's state and word at a line.
        Copy(usize, usize),
    }

    #[derive(Clone, Copy, PartialEq, Eq, Debug)]
    enum Answer {
        Wait,
        Hit(u64),
        Done,
        // Result and waited count.
        Got(u64, u64),
        Did(usize, Deed, usize),
        Idle(usize),
        Has(State, u64),
        // By the published number, which no definition of the code gives here.
        Refused(u8),
    }

    impl From<Refusal> for Answer {
        fn from(refusal: Refusal) -> Answer {
            Answer::Refused(refusal.number())
        }
    }

    // What a call answers where it is not refused.
    impl From<Reply> for Answer {
        fn from(reply: Reply) -> Answer {
            match reply {
                Some(word) => Answer::Hit(word),
                None => Answer::Wait,
            }
        }
    }

    impl From<()> for Answer {
        fn from(_: ()) -> Answer {
            Answer::Done
        }
    }

    impl From<Collected> for Answer {
        fn from(collected: Collected) -> Answer {
            Answer::Got(collected.word, collected.waited)
        }
    }

    impl From<(State, u64)> for Answer {
        fn from((state, word): (State, u64)) -> Answer {
            Answer::Has(state, word)
        }
    }

    impl From<SlotReport> for Answer {
        fn from(report: SlotReport) -> Answer {
            match report.line {
                Some(line) => Answer::Did(report.owner, report.deed, line),
                None => Answer::Idle(report.owner),
            }
        }
    }

    // The answer of a call that may be refused.
    impl<T> From<Result<T, Refusal>> for Answer
    where
        Answer: From<T>,
    {
        fn from(answer: Result<T, Refusal>) -> Answer {
            match answer {
                Ok(value) => value.into(),
                Err(refusal) => refusal.into(),
            }
        }
    }

    fn copy<S: Schedule, M: LineMemory>(
        fabric: &Fabric<S, M>,
        board: usize,
        line: usize,
    ) -> Result<(State, u64), Refusal> {
        Ok((fabric.state(board, line)?, fabric.word(board, line)?))
    }

    // A `match`, since each call has arguments of its own.
    fn make<S: Schedule, M: LineMemory>(fabric: &mut Fabric<S, M>, call: Call) -> Answer {
        match call {
            Call::Load(board, line) => fabric.load(board, line).into(),
            Call::Store(board, line, word, key) => fabric.store(board, line, word, key).into(),
            Call::Replace(board, line) => fabric.replace(board, line).into(),
            Call::Guard(line, old, new) => fabric.guard(line, old, new).into(),
            Call::Collect(board) => fabric.collect(board).into(),
            Call::Slot => fabric.slot().into(),
            Call::Copy(board, line) => copy(fabric, board, line).into(),
        }
    }

    fn run<S: Schedule, M: LineMemory>(
        rt: &impl Abort,
        fabric: &mut Fabric<S, M>,
        script: &[(Call, Answer)],
    ) {
        for (call, answer) in script {
            assert_eq!(rt; make(fabric, *call), *answer);
        }
    }

    // The script on a fabric just made, over these words.
    fn play<S: Schedule + Drop>(
        rt: &impl Abort,
        schedule: S,
        words: &mut [u64],
        script: &[(Call, Answer)],
    ) {
        let mut fabric = Fabric::new(schedule, FlatMemory::over(words));
        run(rt, &mut fabric, script);
    }

    fn in_turn(boards: usize) -> Result<RoundRobin, Fail> {
        RoundRobin::new(boards).map_err(|_| Fail::new("the board count"))
    }

    #[test]
    fn store_then_load_of_another_board(rt: HostRuntime) -> Result<(), Fail> {
        let mut words = [0];
        let script = [
            (Call::Store(0, 0, 7, 0), Answer::Wait),
            (Call::Copy(0, 0), Answer::Has(State::I, 0)),
            (Call::Slot, Answer::Did(0, Deed::GetMServed, 0)),
            (Call::Copy(0, 0), Answer::Has(State::M, 7)),
            (Call::Load(1, 0), Answer::Wait),
            (Call::Slot, Answer::Did(1, Deed::GetS, 0)),
            (Call::Copy(0, 0), Answer::Has(State::MSwb, 7)),
            (Call::Copy(1, 0), Answer::Has(State::ISd, 0)),
            (Call::Slot, Answer::Did(0, Deed::PutM, 0)),
            (Call::Copy(0, 0), Answer::Has(State::S, 7)),
            (Call::Copy(1, 0), Answer::Has(State::ISd, 0)),
            (Call::Slot, Answer::Did(1, Deed::Data, 0)),
            (Call::Copy(0, 0), Answer::Has(State::S, 7)),
            (Call::Copy(1, 0), Answer::Has(State::S, 7)),
            (Call::Collect(0), Answer::Got(7, 1)),
            (Call::Collect(1), Answer::Got(7, 3)),
        ];
        play(&rt, in_turn(2)?, &mut words, &script);
        assert_eq!(rt; words, [7]);
        Ok(())
    }

    #[test]
    fn first_upgrade_wins(rt: HostRuntime) -> Result<(), Fail> {
        let mut words = [5];
        let script = [
            (Call::Load(0, 0), Answer::Wait),
            (Call::Load(1, 0), Answer::Wait),
            (Call::Slot, Answer::Did(0, Deed::GetSServed, 0)),
            (Call::Slot, Answer::Did(1, Deed::GetSServed, 0)),
            (Call::Collect(0), Answer::Got(5, 1)),
            (Call::Collect(1), Answer::Got(5, 2)),
            (Call::Store(0, 0, 7, 0), Answer::Wait),
            (Call::Store(1, 0, 8, 0), Answer::Wait),
            (Call::Copy(0, 0), Answer::Has(State::SMw, 5)),
            (Call::Copy(1, 0), Answer::Has(State::SMw, 5)),
            (Call::Slot, Answer::Did(0, Deed::Upg, 0)),
            (Call::Copy(0, 0), Answer::Has(State::M, 7)),
            (Call::Copy(1, 0), Answer::Has(State::I, 0)),
            (Call::Slot, Answer::Did(1, Deed::GetM, 0)),
            (Call::Copy(0, 0), Answer::Has(State::MIwb, 7)),
            (Call::Slot, Answer::Did(0, Deed::PutM, 0)),
            (Call::Slot, Answer::Did(1, Deed::Data, 0)),
            (Call::Copy(1, 0), Answer::Has(State::M, 8)),
            (Call::Collect(0), Answer::Got(7, 1)),
            (Call::Collect(1), Answer::Got(8, 4)),
        ];
        play(&rt, in_turn(2)?, &mut words, &script);
        assert_eq!(rt; words, [7]);
        Ok(())
    }

    #[test]
    fn load_before_a_store_in_the_row(rt: HostRuntime) -> Result<(), Fail> {
        let mut words = [0];
        let script = [
            (Call::Store(0, 0, 7, 0), Answer::Wait),
            (Call::Slot, Answer::Did(0, Deed::GetMServed, 0)),
            (Call::Collect(0), Answer::Got(7, 1)),
            (Call::Load(1, 0), Answer::Wait),
            (Call::Store(2, 0, 9, 0), Answer::Wait),
            (Call::Slot, Answer::Did(1, Deed::GetS, 0)),
            (Call::Copy(0, 0), Answer::Has(State::MSwb, 7)),
            (Call::Slot, Answer::Did(2, Deed::GetM, 0)),
            (Call::Copy(0, 0), Answer::Has(State::MIwb, 7)),
            (Call::Copy(1, 0), Answer::Has(State::ISdI, 0)),
            (Call::Slot, Answer::Did(0, Deed::PutM, 0)),
            (Call::Slot, Answer::Did(1, Deed::Data, 0)),
            (Call::Copy(1, 0), Answer::Has(State::I, 0)),
            (Call::Collect(1), Answer::Got(7, 4)),
            (Call::Slot, Answer::Did(2, Deed::Data, 0)),
            (Call::Copy(2, 0), Answer::Has(State::M, 9)),
            (Call::Collect(2), Answer::Got(9, 5)),
            (Call::Slot, Answer::Idle(0)),
        ];
        play(&rt, in_turn(3)?, &mut words, &script);
        assert_eq!(rt; words, [7]);
        Ok(())
    }

    // A store with another behind it is written back before that one is served.
    #[test]
    fn three_stores_in_a_row(rt: HostRuntime) -> Result<(), Fail> {
        let mut words = [0];
        let script = [
            (Call::Store(0, 0, 4, 0), Answer::Wait),
            (Call::Store(1, 0, 5, 0), Answer::Wait),
            (Call::Store(2, 0, 6, 0), Answer::Wait),
            (Call::Slot, Answer::Did(0, Deed::GetMServed, 0)),
            (Call::Slot, Answer::Did(1, Deed::GetM, 0)),
            (Call::Slot, Answer::Did(2, Deed::GetM, 0)),
            (Call::Copy(1, 0), Answer::Has(State::IMdI, 0)),
            (Call::Slot, Answer::Did(0, Deed::PutM, 0)),
            (Call::Slot, Answer::Did(1, Deed::Data, 0)),
            (Call::Copy(1, 0), Answer::Has(State::MIwb, 5)),
            (Call::Slot, Answer::Idle(2)),
            (Call::Slot, Answer::Idle(0)),
            (Call::Slot, Answer::Did(1, Deed::PutM, 0)),
            (Call::Slot, Answer::Did(2, Deed::Data, 0)),
            (Call::Copy(2, 0), Answer::Has(State::M, 6)),
            (Call::Collect(1), Answer::Got(5, 5)),
            (Call::Collect(2), Answer::Got(6, 9)),
        ];
        play(&rt, in_turn(3)?, &mut words, &script);
        assert_eq!(rt; words, [5]);
        Ok(())
    }

    #[test]
    fn keys(rt: HostRuntime) -> Result<(), Fail> {
        let mut words = [0];
        let script = [
            (Call::Store(0, 0, 3, 0), Answer::Wait),
            (Call::Slot, Answer::Did(0, Deed::GetMServed, 0)),
            (Call::Collect(0), Answer::Got(3, 1)),
            (Call::Guard(0, 60000, 4711), Answer::Done),
            (Call::Store(0, 0, 5, 4712), Answer::Refused(9)),
            (Call::Copy(0, 0), Answer::Has(State::M, 3)),
            (Call::Load(0, 0), Answer::Hit(3)),
            (Call::Store(0, 0, 5, 4711), Answer::Hit(5)),
            (Call::Guard(0, 1, 10000), Answer::Refused(8)),
            (Call::Guard(0, 4711, 10000), Answer::Refused(8)),
            (Call::Guard(0, 1, 0), Answer::Refused(9)),
            (Call::Load(0, 0), Answer::Hit(5)),
            (Call::Guard(0, 4711, 0), Answer::Done),
            (Call::Store(0, 0, 6, 1), Answer::Hit(6)),
        ];
        play(&rt, in_turn(1)?, &mut words, &script);
        Ok(())
    }

    #[test]
    fn board_alone_waits_one_slot(rt: HostRuntime) {
        let mut words = [0];
        let script = [
            (Call::Store(0, 0, u64::MAX, 0), Answer::Wait),
            (Call::Slot, Answer::Did(0, Deed::GetMServed, 0)),
            (Call::Slot, Answer::Idle(0)),
            (Call::Collect(0), Answer::Got(u64::MAX, 1)),
        ];
        play(&rt, SlotList::board_zero(), &mut words, &script);
    }

    #[test]
    fn one_replacement_at_a_time(rt: HostRuntime) -> Result<(), Fail> {
        let mut words = [0, 0];
        let script = [
            (Call::Store(0, 0, 3, 0), Answer::Wait),
            (Call::Slot, Answer::Did(0, Deed::GetMServed, 0)),
            (Call::Collect(0), Answer::Got(3, 1)),
            (Call::Store(0, 1, 4, 0), Answer::Wait),
            (Call::Slot, Answer::Did(0, Deed::GetMServed, 1)),
            (Call::Collect(0), Answer::Got(4, 1)),
            (Call::Replace(0, 0), Answer::Done),
            (Call::Copy(0, 0), Answer::Has(State::MIwb, 3)),
            (Call::Replace(0, 0), Answer::Refused(10)),
            (Call::Replace(0, 1), Answer::Refused(11)),
            (Call::Copy(0, 1), Answer::Has(State::M, 4)),
            (Call::Slot, Answer::Did(0, Deed::PutM, 0)),
            (Call::Replace(0, 1), Answer::Done),
            (Call::Slot, Answer::Did(0, Deed::PutM, 1)),
            (Call::Slot, Answer::Idle(0)),
        ];
        play(&rt, in_turn(1)?, &mut words, &script);
        assert_eq!(rt; words, [3, 4]);
        Ok(())
    }

    // Both ready: after a request the write-back is next, after a write-back the request.
    #[test]
    fn requests_and_write_backs_take_turns(rt: HostRuntime) -> Result<(), Fail> {
        let mut words = [0, 6];
        let script = [
            (Call::Store(0, 0, 3, 0), Answer::Wait),
            (Call::Slot, Answer::Did(0, Deed::GetMServed, 0)),
            (Call::Collect(0), Answer::Got(3, 1)),
            (Call::Replace(0, 0), Answer::Done),
            (Call::Load(0, 1), Answer::Wait),
            (Call::Slot, Answer::Did(0, Deed::PutM, 0)),
            (Call::Slot, Answer::Did(0, Deed::GetSServed, 1)),
            (Call::Collect(0), Answer::Got(6, 2)),
        ];
        play(&rt, in_turn(1)?, &mut words, &script);
        assert_eq!(rt; words, [3, 6]);
        Ok(())
    }

    // Board 0 is to write a replaced line back, and board 1 waits for it.
    fn ask<S: Schedule, M: LineMemory>(rt: &impl Abort, fabric: &Fabric<S, M>) {
        assert_eq!(rt; fabric.marked(0), Ok(Some(0)));
        assert_eq!(rt; fabric.marked(1), Ok(None));
        assert_eq!(rt; fabric.marked(2), Err(Refusal::NoBoard));
        assert_eq!(rt; fabric.write_back(0, 0), Ok(Some(0)));
        assert_eq!(rt; fabric.write_back(0, 1), Ok(None));
        assert_eq!(rt; fabric.waiting(0, 0), Ok(Some(1)));
        assert_eq!(rt; fabric.waiting(0, 1), Ok(None));
        assert_eq!(rt; fabric.waiting(1, 0), Err(Refusal::NoLine));
        assert_eq!(rt; fabric.last_deed(0), Ok(LastDeed::Request));
        assert_eq!(rt; fabric.key(0), Ok(4711));
    }

    fn ask_on_the_way<S: Schedule, M: LineMemory>(rt: &impl Abort, fabric: &mut Fabric<S, M>) {
        let script = [
            (Call::Guard(0, 0, 4711), Answer::Done),
            (Call::Store(0, 0, 7, 4711), Answer::Wait),
            (Call::Slot, Answer::Did(0, Deed::GetMServed, 0)),
            (Call::Collect(0), Answer::Got(7, 1)),
            (Call::Replace(0, 0), Answer::Done),
            (Call::Load(1, 0), Answer::Wait),
            (Call::Slot, Answer::Did(1, Deed::GetS, 0)),
        ];
        run(rt, fabric, &script);
        ask(rt, fabric);
        run(rt, fabric, &[(Call::Slot, Answer::Did(0, Deed::PutM, 0))]);
        assert_eq!(rt; fabric.marked(0), Ok(None));
        assert_eq!(rt; fabric.write_back(0, 0), Ok(None));
        assert_eq!(rt; fabric.last_deed(0), Ok(LastDeed::WriteBack));
    }

    #[test]
    fn lists_rows_marks_and_keys(rt: HostRuntime) -> Result<(), Fail> {
        let mut words = [0];
        let mut fabric = Fabric::new(in_turn(2)?, FlatMemory::over(&mut words));
        ask_on_the_way(&rt, &mut fabric);
        Ok(())
    }

    // Board 0's store on the way: kind, line and marks, result and waited count; each is asked by a call of its own.
    fn shows<S: Schedule, M: LineMemory>(
        rt: &impl Abort,
        fabric: &Fabric<S, M>,
        sent: bool,
        served: bool,
        res: Option<u64>,
        waited: u64,
    ) -> Result<(), Fail> {
        let Some(request) = fabric.request(0).ok().flatten() else {
            return Err(Fail::new("no request"));
        };
        assert_eq!(rt; request.kind(), Kind::Store(5));
        assert_eq!(rt; request.line(), 1);
        assert_eq!(rt; request.is_sent(), sent);
        assert_eq!(rt; request.is_served(), served);
        assert_eq!(rt; request.result(), res);
        assert_eq!(rt; request.waited(), waited);
        Ok(())
    }

    #[test]
    fn requests_shown(rt: HostRuntime) -> Result<(), Fail> {
        let mut words = [0; 2];
        let mut fabric = Fabric::new(in_turn(2)?, FlatMemory::over(&mut words));
        assert!(rt; fabric.store(1, 1, 6, 0).is_ok());
        let _ = fabric.slot();
        let _ = fabric.slot();
        assert!(rt; fabric.store(0, 1, 5, 0).is_ok());
        shows(&rt, &fabric, false, false, None, 0)?;
        let _ = fabric.slot();
        shows(&rt, &fabric, true, false, None, 1)?;
        let _ = fabric.slot();
        let _ = fabric.slot();
        shows(&rt, &fabric, true, true, Some(5), 3)?;
        assert!(rt; fabric.collect(0).is_ok());
        assert!(rt; matches!(fabric.request(0), Ok(None)));
        assert!(rt; matches!(fabric.request(2), Err(Refusal::NoBoard)));
        Ok(())
    }

    #[test]
    fn refusals_in_order(rt: HostRuntime) -> Result<(), Fail> {
        let mut words = [2];
        let script = [
            (Call::Load(2, 1), Answer::Refused(5)),
            (Call::Store(2, 1, 1, 0), Answer::Refused(5)),
            (Call::Replace(2, 1), Answer::Refused(5)),
            (Call::Copy(2, 1), Answer::Refused(5)),
            (Call::Collect(2), Answer::Refused(5)),
            (Call::Load(0, 1), Answer::Refused(6)),
            (Call::Store(0, 1, 1, 0), Answer::Refused(6)),
            (Call::Replace(0, 1), Answer::Refused(6)),
            (Call::Copy(0, 1), Answer::Refused(6)),
            (Call::Guard(1, 0, 10000), Answer::Refused(6)),
            (Call::Replace(0, 0), Answer::Refused(10)),
            (Call::Collect(0), Answer::Refused(12)),
            (Call::Guard(0, 0, 4711), Answer::Done),
            (Call::Load(0, 0), Answer::Wait),
            (Call::Load(0, 1), Answer::Refused(6)),
            (Call::Load(0, 0), Answer::Refused(7)),
            (Call::Store(0, 0, 1, 4712), Answer::Refused(7)),
            (Call::Replace(0, 0), Answer::Refused(7)),
            (Call::Collect(0), Answer::Refused(14)),
            (Call::Slot, Answer::Did(0, Deed::GetSServed, 0)),
            (Call::Load(0, 0), Answer::Refused(7)),
            (Call::Collect(0), Answer::Got(2, 1)),
            (Call::Collect(0), Answer::Refused(12)),
            (Call::Load(0, 0), Answer::Hit(2)),
        ];
        play(&rt, in_turn(2)?, &mut words, &script);
        assert_eq!(rt; words, [2]);
        Ok(())
    }
}
