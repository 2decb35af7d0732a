// The ten commands beside their bytes, worked out by hand from the format.
#![tactic(auto)]

#[cfg(test)]
mod tests {
    use book::{Command, Unwritten, decode, encode};
    use std::process::Abort;
    use std::test::Fail;

    // The command is written as these bytes, which are read back as a command with the same bytes.
    fn spells(rt: &impl Abort, command: &Command, bytes: &[u8]) -> Result<(), Fail> {
        let mut buffer = [0xEE; 20];
        let end = encode(command, &mut buffer, 3)?;
        assert_eq!(rt; end, 3 + command.width());
        assert!(rt; end <= 19);
        assert!(rt; &buffer[3..end] == bytes);
        assert!(rt; buffer[2] == 0xEE && buffer[end] == 0xEE);
        let read = decode(&buffer[3..20])?;
        let mut again = [0; 13];
        let width = encode(&read, &mut again, 0)?;
        assert!(rt; width <= 13);
        assert!(rt; &again[0..width] == bytes);
        Ok(())
    }

    #[test]
    fn table(rt: HostRuntime) -> Result<(), Fail> {
        spells(
            &rt,
            &Command::AddStep {
                step: 1,
                duration: 258,
                kind: 3,
                name: b"MASH  01",
            },
            b"\x01\x01\x01\x02\x03MASH  01",
        )?;
        spells(&rt, &Command::RemoveStep { step: 31 }, &[2, 31])?;
        spells(
            &rt,
            &Command::SetDuration {
                step: 2,
                duration: 999,
            },
            &[3, 2, 3, 231],
        )?;
        spells(
            &rt,
            &Command::After {
                rule: 96,
                u: 1,
                v: 2,
                gap: 513,
                carry: 7,
            },
            &[4, 96, 1, 2, 2, 1, 7],
        )?;
        spells(
            &rt,
            &Command::Within {
                rule: 4,
                u: 1,
                v: 3,
                hours: 30,
            },
            &[5, 4, 1, 3, 0, 30],
        )?;
        spells(
            &rt,
            &Command::At {
                rule: 5,
                v: 9,
                hour: 1999,
            },
            &[6, 5, 9, 7, 207],
        )?;
        spells(&rt, &Command::RemoveRule { rule: 8 }, &[7, 8])?;
        spells(&rt, &Command::SetPeriod { period: 24 }, &[8, 0, 24])?;
        spells(&rt, &Command::SetSpan { span: 65535 }, &[9, 255, 255])?;
        spells(
            &rt,
            &Command::SetVessels { kind: 7, count: 16 },
            &[10, 7, 16],
        )
    }

    #[test]
    fn refusals(rt: HostRuntime) {
        let short = Command::AddStep {
            step: 1,
            duration: 6,
            kind: 0,
            name: b"MASH",
        };
        let mut buffer = [9; 13];
        assert_eq!(rt; encode(&short, &mut buffer, 0), Err(Unwritten::NameLength));
        assert_eq!(rt; encode(&short, &mut buffer, 1), Err(Unwritten::TooShort));
        assert_eq!(rt;
            encode(&Command::RemoveRule { rule: 1 }, &mut buffer, 12),
            Err(Unwritten::TooShort)
        );
        assert!(rt; buffer == [9; 13]);
    }
}
