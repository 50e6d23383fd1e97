// Lines of a script, read by hand: where each is at fault, and what some say.
#![tactic(auto)]

#[cfg(test)]
mod tests {
    use script::fault::Fault;
    use script::form::Form;
    use script::line::read;
    use signalling::content::{Content, FirstIdent};
    use std::test::Fail;

    // Lines with the number and the place of their fault, where there is one.
    static PLACES: [(&str, Option<(u32, usize)>); 34] = [
        ("", Some((31, 1))),
        ("(take)", None),
        ("(take", Some((31, 6))),
        ("(take )", Some((31, 6))),
        ("(tak", Some((31, 2))),
        ("(takes)", Some((31, 2))),
        ("take", Some((31, 1))),
        (" (take)", Some((31, 1))),
        ("()", Some((31, 2))),
        ("(take))", Some((31, 7))),
        ("(take) ", Some((31, 7))),
        ("(tune 5)", None),
        ("(tune\t5)", Some((31, 2))),
        ("(tune 05)", Some((31, 7))),
        ("(tune 0)", None),
        ("(tune 1234567)", None),
        ("(tune 12345678)", Some((31, 7))),
        ("(tune 5x)", Some((31, 7))),
        ("(tune  5)", Some((31, 7))),
        ("(tune)", Some((31, 6))),
        ("(tune 5", Some((31, 8))),
        ("(tune 5 )", Some((31, 8))),
        ("(begin rqe)", None),
        ("(begin RQE)", Some((31, 8))),
        ("(slot (mark))", None),
        ("(slot (mark))x", Some((31, 14))),
        ("(slot 77 (mark))", None),
        ("(slot 77 (mark x)", Some((31, 15))),
        ("(slot 77(mark))", Some((31, 9))),
        ("(slot x (mark))", Some((31, 7))),
        ("(slot (aloha alhq 1 2 3 4))", Some((31, 14))),
        ("(make 1 2 3 4 5 6 7 (mask 8 9) (draws))", None),
        ("(make 1 2 3 4 5 6 7 (mask 8 9) (draws ))", Some((31, 39))),
        (
            "(make 1 2 3 4 5 6 7 (mask 8 9) (draws 1 2 3 4 5 6 7 8 9 10 11 12 13 14 15 16 17))",
            Some((31, 77)),
        ),
    ];

    // The number and the place of a line's fault.
    fn fault_of(line: &str) -> Option<(u32, usize)> {
        read(line.as_bytes())
            .err()
            .map(|fault| (fault.number(), fault.place()))
    }

    #[test]
    fn places(rt: HostRuntime) {
        for (line, fault) in PLACES {
            assert_eq!(rt; fault_of(line), fault, "{}", line);
        }
    }

    #[test]
    fn long_lines(rt: HostRuntime) -> Result<(), Fail> {
        let short = [b' '; 200];
        let long = [b' '; 201];
        match read(&short) {
            Err(Fault::Malformed { place }) => assert_eq!(rt; place, 1),
            _ => return Err(Fail::new("200 bytes are read")),
        }
        match read(&long) {
            Err(fault) => assert_eq!(rt; fault.number(), 33),
            Ok(_) => return Err(Fail::new("201 bytes are not read")),
        }
        Ok(())
    }

    #[test]
    fn reply(rt: HostRuntime) -> Result<(), Fail> {
        let Ok(form) = read(b"(slot 32767 (reply ackv 0 15 8191 1048575))") else {
            return Err(Fail::new("a form"));
        };
        let Form::Slot(heard) = form else {
            return Err(Fail::new("a slot"));
        };
        assert_eq!(rt; heard.code.ok_or("a code")?, 32767);
        let Content::Reply {
            qual,
            number,
            first,
            to,
            ..
        } = heard.content
        else {
            return Err(Fail::new("a reply"));
        };
        assert_eq!(rt; qual, 0);
        assert_eq!(rt; number, 15);
        assert_eq!(rt; to, 1048575);
        match first {
            FirstIdent::Plain(ident) => {
                assert_eq!(rt; ident, 8191);
                Ok(())
            },
            FirstIdent::Regi => Err(Fail::new("a plain ident")),
        }
    }

    #[test]
    fn draws(rt: HostRuntime) -> Result<(), Fail> {
        let Ok(form) = read(b"(make 1 2 3 4 5 6 7 (mask 8 9) (draws 20 21 22))") else {
            return Err(Fail::new("a form"));
        };
        let Form::Make(make) = form else {
            return Err(Fail::new("a make"));
        };
        assert_eq!(rt; make.card.nw, 7);
        assert_eq!(rt; make.plan.value, 9);
        assert_eq!(rt; make.draws.count, 3);
        let third = make.draws.numbers[2];
        let fourth = make.draws.numbers[3];
        assert_eq!(rt; third, 22);
        assert_eq!(rt; fourth, 0);
        Ok(())
    }
}
