#![tactic(auto)]

// Each memory against a plain list of words, on tables of cases.
#[cfg(test)]
mod tests {
    use memory::flat::FlatMemory;
    use memory::interface::LineMemory;
    use memory::window::Window;
    use std::array;
    use std::process::Abort;

    const LENGTHS: [usize; 6] = [0, 1, 5, 63, 64, 65];

    const PLACES: [usize; 8] = [0, 1, 4, 5, 63, 64, 65, usize::MAX];

    // 65 words, no two alike.
    fn sample() -> [u64; 65] {
        array::from_fn(|place| place as u64 + 100)
    }

    // The sample with 7 at one place, if that is below `end`.
    fn sample_with_7(place: usize, end: usize) -> [u64; 65] {
        let mut list = sample();
        if let Some(word) = list.iter_mut().take(end).nth(place) {
            *word = 7;
        }
        list
    }

    fn is_list<M: LineMemory>(memory: &M, list: &[u64]) -> bool {
        list.iter()
            .enumerate()
            .all(|(place, word)| memory.read(place) == *word)
            && memory.lines() == list.len()
            && memory.read(list.len()) == 0
            && memory.read(usize::MAX) == 0
    }

    fn flat_case(rt: &impl Abort, length: usize, line: usize) {
        let mut words = sample();
        let n = length.min(65);
        let end = length.min(64);
        let after = sample_with_7(line, end);
        let mut memory = FlatMemory::over(&mut words[0..n]);
        assert!(rt; is_list(&memory, &sample()[0..end]));
        memory.write(line, 7);
        assert!(rt; is_list(&memory, &after[0..end]));
        let back: &[u64] = memory.into_words();
        assert!(rt; back == &after[0..n]);
        assert!(rt; words == after);
    }

    fn window_case(rt: &impl Abort, start: usize, count: usize, line: usize) {
        let mut words = sample();
        let from = start.min(64);
        let to = start.saturating_add(count).min(64);
        let after = sample_with_7(start.saturating_add(line), to);
        let mut window = Window::new(FlatMemory::over(&mut words), start, count);
        assert!(rt; is_list(&window, &sample()[from..to]));
        window.write(line, 7);
        assert!(rt; is_list(&window, &after[from..to]));
        assert!(rt; is_list(&window.into_inner(), &after[0..64]));
        assert!(rt; words == after);
    }

    #[test]
    fn flat_is_a_list_of_at_most_64(rt: HostRuntime) {
        for length in LENGTHS {
            for line in PLACES {
                flat_case(&rt, length, line);
            }
        }
    }

    #[test]
    fn window_is_a_part_of_the_list(rt: HostRuntime) {
        for start in PLACES {
            for count in PLACES {
                for line in PLACES {
                    window_case(&rt, start, count, line);
                }
            }
        }
    }

    #[test]
    fn window_over_a_window(rt: HostRuntime) {
        let mut words = sample();
        let below = Window::new(FlatMemory::over(&mut words), 60, usize::MAX);
        let mut window = Window::new(below, 1, 2);
        assert!(rt; is_list(&window, &sample()[61..63]));
        window.write(1, 7);
        window.write(2, 8);
        let after = sample_with_7(62, 64);
        assert!(rt; is_list(&window.into_inner(), &after[60..64]));
        assert!(rt; words == after);
    }
}
