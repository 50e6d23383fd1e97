// The tables of the standard and of the parts, row by row.
#![tactic(auto)]

#[cfg(test)]
mod tests {
    use parts::choice::AnyService;
    use parts::few_numbers::FewNumbers;
    use parts::list_plan::ListPlan;
    use parts::list_source::ListSource;
    use parts::plan::{MaskPlan, NetworkPlan};
    use parts::register_source::RegisterSource;
    use parts::service::Service;
    use parts::source::DrawSource;
    use parts::verdict::{EndWord, Verdict};
    use signalling::content::{Content, FirstIdent, Function, ReplyKind};
    use signalling::facts::self_check;
    use signalling::frame_length::FrameLength;
    use signalling::tables::{four_bit_length, two_bit_length, wait_of};
    use std::process::Abort;
    use std::test::Fail;

    #[test]
    fn coded_numbers(rt: HostRuntime) {
        let lengths = [0, 1, 2, 3, 4, 5, 6, 7, 8, 9, 10, 12, 15, 19, 25, 32];
        for (number, length) in (0u32..16).zip(lengths.iter()) {
            assert!(rt; four_bit_length(number) == *length);
        }
        let short = [0, 1, 3, 6];
        for (number, length) in (0u32..4).zip(short.iter()) {
            assert!(rt; two_bit_length(number) == *length);
        }
        let waits = [0, 1, 2, 3, 4, 5, 10, 15];
        for (wt, wait) in (0u32..8).zip(waits.iter()) {
            assert!(rt; wait_of(wt) == *wait);
        }
        assert!(rt; self_check());
    }

    // Whether a service is invited by ALH, ALHS, ALHD, ALHE, ALHR, ALHX, ALHF and an unknown function.
    fn invited(rt: &impl Abort, service: AnyService, expected: &[bool]) {
        let functions = [
            Function::Alh,
            Function::Alhs,
            Function::Alhd,
            Function::Alhe,
            Function::Alhr,
            Function::Alhx,
            Function::Alhf,
            Function::Unknown,
        ];
        for (function, expected) in functions.iter().zip(expected.iter()) {
            assert!(rt; service.is_invited(*function) == *expected);
        }
    }

    #[test]
    fn invitations(rt: HostRuntime) {
        invited(
            &rt,
            AnyService::Rqs,
            &[true, true, false, false, false, true, false, false],
        );
        invited(
            &rt,
            AnyService::Rqr,
            &[true, true, true, false, true, false, false, false],
        );
        invited(
            &rt,
            AnyService::Rqe,
            &[true, true, true, true, true, true, false, false],
        );
        assert!(rt; !AnyService::Rqs.is_emergency());
        assert!(rt; !AnyService::Rqr.is_emergency());
        assert!(rt; AnyService::Rqe.is_emergency());
    }

    fn reply(kind: ReplyKind, qual: u32, first: FirstIdent, to: u32) -> Content {
        Content::Reply {
            kind,
            qual,
            number: 0,
            first,
            to,
        }
    }

    #[test]
    fn registration_verdicts(rt: HostRuntime) {
        let rqr = AnyService::Rqr;
        let regi = FirstIdent::Regi;
        assert!(rt;
            rqr.judge(&reply(ReplyKind::Ack, 0, regi, 5), 5) == Verdict::End(EndWord::Accepted)
        );
        assert!(rt; rqr.judge(&reply(ReplyKind::Ack, 1, regi, 5), 5) == Verdict::Nothing);
        assert!(rt; rqr.judge(&reply(ReplyKind::Acki, 1, regi, 5), 5) == Verdict::Interim);
        assert!(rt; rqr.judge(&reply(ReplyKind::Acki, 0, regi, 5), 5) == Verdict::Nothing);
        assert!(rt;
            rqr.judge(&reply(ReplyKind::Ackx, 0, regi, 5), 5) == Verdict::End(EndWord::Denied)
        );
        assert!(rt;
            rqr.judge(&reply(ReplyKind::Ackx, 1, regi, 5), 5) == Verdict::End(EndWord::Overload)
        );
        for kind in [ReplyKind::Ackv, ReplyKind::Acke, ReplyKind::Acko] {
            assert!(rt; rqr.judge(&reply(kind, 0, regi, 5), 5) == Verdict::Nothing);
            assert!(rt; rqr.judge(&reply(kind, 1, regi, 5), 5) == Verdict::Nothing);
        }
        assert!(rt; rqr.judge(&reply(ReplyKind::Ack, 0, regi, 6), 5) == Verdict::Nothing);
        assert!(rt;
            rqr.judge(&reply(ReplyKind::Ack, 0, FirstIdent::Plain(9), 5), 5) == Verdict::Nothing
        );
    }

    #[test]
    fn call_verdicts(rt: HostRuntime) {
        let rqs = AnyService::Rqs;
        let plain = FirstIdent::Plain(9);
        assert!(rt; rqs.judge(&reply(ReplyKind::Acki, 0, plain, 5), 5) == Verdict::Interim);
        assert!(rt;
            rqs.judge(&reply(ReplyKind::Ackv, 0, plain, 5), 5) == Verdict::End(EndWord::Unavailable)
        );
        assert!(rt;
            rqs.judge(&reply(ReplyKind::Ackx, 1, plain, 5), 5) == Verdict::End(EndWord::Overload)
        );
        assert!(rt;
            rqs.judge(&reply(ReplyKind::Ackx, 0, plain, 5), 5) == Verdict::End(EndWord::Denied)
        );
        assert!(rt; rqs.judge(&reply(ReplyKind::Ack, 0, plain, 5), 5) == Verdict::Nothing);
        assert!(rt; rqs.judge(&reply(ReplyKind::Acke, 0, plain, 5), 5) == Verdict::Nothing);
        assert!(rt; rqs.judge(&reply(ReplyKind::Acko, 0, plain, 5), 5) == Verdict::Nothing);
        assert!(rt; rqs.judge(&reply(ReplyKind::Acki, 0, plain, 6), 5) == Verdict::Nothing);
        assert!(rt; rqs.judge(&Content::Mark, 5) == Verdict::Nothing);
        assert!(rt;
            rqs.judge(&reply(ReplyKind::Acki, 0, FirstIdent::Regi, 5), 5) == Verdict::Nothing
        );
        let go = Content::Go {
            to: 9,
            partner: 5,
            channel: 40,
            number: 0,
        };
        assert!(rt; AnyService::Rqe.judge(&go, 5) == Verdict::End(EndWord::Granted));
        assert!(rt; AnyService::Rqr.judge(&go, 5) == Verdict::Nothing);
        assert!(rt; rqs.judge(&go, 9) == Verdict::End(EndWord::Granted));
        assert!(rt; rqs.judge(&go, 6) == Verdict::Nothing);
    }

    #[test]
    fn draws_and_plans(rt: HostRuntime) -> Result<(), Fail> {
        let Some(frame) = FrameLength::new(19) else {
            return Err(Fail::new("no frame of 19 slots"));
        };
        let mut numbers = [0; 16];
        numbers[0] = 18;
        numbers[1] = 38;
        let mut list = ListSource::new(FewNumbers { numbers, count: 2 });
        assert_eq!(rt; list.draw(frame), 19);
        assert_eq!(rt; list.draw(frame), 1);
        assert_eq!(rt; list.draw(frame), 1);
        let mut borrowed = ListSource::new([18, 38].as_slice());
        assert_eq!(rt; borrowed.draw(frame), 19);
        assert_eq!(rt; borrowed.draw(frame), 1);
        assert_eq!(rt; borrowed.draw(frame), 1);
        assert!(rt; RegisterSource::new(0).is_err());
        let Ok(mut register) = RegisterSource::new(3) else {
            return Err(Fail::new("a register of 3 is refused"));
        };
        assert_eq!(rt; register.draw(frame), 4);
        assert_eq!(rt; register.draw(frame), 46081 % 19 + 1);
        let mask = MaskPlan {
            mask: 32512,
            value: 256,
        };
        assert!(rt; mask.is_accepted(300) && !mask.is_accepted(77));
        let listed = ListPlan { codes: &[7, 300] };
        assert!(rt; listed.is_accepted(300) && !listed.is_accepted(8));
        Ok(())
    }
}
