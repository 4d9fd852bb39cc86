// The text for two subscribers, written down by hand.
use crate::make_text;
use std::test::Fail;

const OF_TWO: &[u8] = b"trunks: REGION
GRANT seize_trunk, free_trunk;
SYN lines = 4;
DCL used INT := 0;
DCL idle EVENT;
seize_trunk: PROC ();
DO WHILE used = lines; DELAY idle; OD;
used +:= 1;
END seize_trunk;
free_trunk: PROC ();
used -:= 1;
CONTINUE idle;
END free_trunk;
END trunks;
exchange: MODULE
SEIZE seize_trunk, free_trunk;
GRANT subscriber, charges, n;
SYN n = 2;
NEWMODE charge = STRUCT (line INT, cost INT);
SIGNAL off_hook, dial = (INT), clear;
DCL charges BUFFER (8) charge;
talk: PROCESS (number INT);
DCL digits INT;
RECEIVE CASE (off_hook): ESAC;
RECEIVE CASE (dial IN d): digits := d; ESAC;
seize_trunk();
SEND charges ([number, digits MOD 7 + 1]);
free_trunk();
RECEIVE CASE (clear): ESAC;
END talk;
subscriber: PROCESS (number INT);
DCL i INSTANCE;
i := START talk(number);
SEND off_hook TO i;
SEND dial (number * 3) TO i;
SEND clear TO i;
END subscriber;
END exchange;
line_1: MODULE SEIZE subscriber; START subscriber(1); END line_1;
line_2: MODULE SEIZE subscriber; START subscriber(2); END line_2;
report: MODULE
SEIZE charges, n;
DCL calls ARRAY (1:7) INT;
DCL sum INT;
DO FOR k := 1 TO n;
RECEIVE CASE (charges IN c): calls(c.cost) +:= 1; sum +:= c.cost; ESAC;
OD;
DO FOR u := 1 TO 7;
PUT_INT(u); PUT_TEXT(\" \"); PUT_INT(calls(u)); PUT_NL();
OD;
PUT_TEXT(\"total \"); PUT_INT(sum); PUT_NL();
END report;
";

#[test]
fn the_text_of_two_subscribers_is_as_written(rt: HostRuntime) -> Result<(), Fail> {
    let made = make_text(rt.alloc(), 2)?;
    assert!(rt; made.as_slice() == OF_TWO);
    Ok(())
}
