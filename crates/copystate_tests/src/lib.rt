#![tactic(auto)]

// The table and the roles of the states, compared with their printed forms.
#[cfg(test)]
mod tests {
    use copystate::{Entry, Event, State, table_is_sound};
    use std::test::Fail;

    const TABLE: &str = "\
I|=|ISd|IMd|-|-|-|-|=|=|=
S|SMw|-|-|I|-|-|-|=|I|I
M|-|-|-|MIwb|-|-|-|MSwb|MIwb|-
ISd|-|-|-|-|S|-|-|=|ISdI|-
IMd|-|-|-|-|M|-|-|IMdS|IMdI|-
SMw|-|-|IMd|-|-|M|-|=|I|I
MIwb|-|-|-|-|-|-|I|=|=|-
MSwb|-|-|-|MIwb|-|-|S|=|MIwb|-
IMdI|-|-|-|-|MIwb|-|-|=|=|-
ISdI|-|-|-|-|I|-|-|=|=|-
IMdS|-|-|-|-|MSwb|-|-|=|IMdI|-
";

    // c has a copy, l a load hits, s a store hits, h holder, d waits for data, w to write, u upgrading, b writing back
    const ROLES: &str = "\
I|........
S|cl......
M|clsh....
ISd|....d...
IMd|....dw..
SMw|c.....u.
MIwb|clsh...b
MSwb|clsh...b
IMdI|....dw..
ISdI|....d...
IMdS|....dw..
";

    #[test]
    fn table_is_as_printed(rt: HostRuntime) -> Result<(), Fail> {
        let mut text = String::new(rt.alloc());
        for state in State::ALL {
            write!(text, "{state:?}")?;
            for event in Event::ALL {
                match state.entry(event) {
                    Entry::Same => text.push_str("|=")?,
                    Entry::Never => text.push_str("|-")?,
                    Entry::To(next) => write!(text, "|{next:?}")?,
                }
            }
            text.push('\n')?;
        }
        assert_eq!(rt; text.as_str(), TABLE);
        Ok(())
    }

    #[test]
    fn roles_are_as_printed(rt: HostRuntime) -> Result<(), Fail> {
        let mut text = String::new(rt.alloc());
        for s in State::ALL {
            write!(text, "{s:?}|")?;
            let roles = [
                (s.has_copy(), 'c'),
                (s.load_hits(), 'l'),
                (s.store_hits(), 's'),
                (s.is_holder(), 'h'),
                (s.is_waiting(), 'd'),
                (s.is_waiting_to_write(), 'w'),
                (s.is_upgrading(), 'u'),
                (s.is_writing_back(), 'b'),
            ];
            for (is, letter) in roles {
                text.push(if is { letter } else { '.' })?;
            }
            text.push('\n')?;
        }
        assert_eq!(rt; text.as_str(), ROLES);
        Ok(())
    }

    #[test]
    fn codes_count_up_and_the_check_passes(rt: HostRuntime) {
        for (row, state) in State::ALL.iter().enumerate() {
            assert!(rt; state.code() == row);
        }
        assert!(rt; table_is_sound());
    }
}
