//! Descriptions and scenarios, and what a correct run of a scenario prints.

ghost use Rattle.std.specs.Prelude.{◌≡◌, true};
ghost use Rattle.scenario.specs.Sound.{IsScenario, HaveModels};

use crate::tables::tell_folded;
use desc_text::{print_desc, read_desc};
use lockstep::{Rows, reference};
use scenario::Scenario;
use scenario_text::read_scenario;
use slave_desc::SlaveDesc;
use std::alloc::Global;
use std::test::Fail;
use text_lines::TextRefused;

/// What is asked, a text, and the answer: the line and the cause where the text is refused. Of a
/// `description` it is the canonical text; of a scenario it is how many steps, micro steps, runs, slaves,
/// wires, settings, intervals, later settings and net lines it has (`counts`), all its parts, or the
/// first rows of a correct run, the number of its rows and the fault that ends them. What is absent is
/// told at the line after the last, a repeated key comes before its words, comments and empty lines
/// count, the first of two bad words decides, and a carriage return with no line feed behind it stays in
/// the word.
pub const TEXTS: &str = "\
description|slave count;uuid 00000000-0000-0000-0000-000000000001;address 127.0.0.1 9001;model counter 1000;output 1 uint32;|slave count;uuid 00000000-0000-0000-0000-000000000001;address 127.0.0.1 9001;model counter 1000;busy 0;heartbeat 0;resolution 1 1000;output 1 uint32;
description|# a counter^;slave count^;uuid 00000000000000000000000000000001;\taddress\t127.000.0.01   009001 ;; \t# more;model counter 0001000;output 01 uint32|slave count;uuid 00000000-0000-0000-0000-000000000001;address 127.0.0.1 9001;model counter 1000;busy 0;heartbeat 0;resolution 1 1000;output 1 uint32;
description|slave count;output 1 uint32;model counter 1000;address 127.0.0.1 9001;uuid {00000000-0000-0000-0000-000000000001};|slave count;uuid 00000000-0000-0000-0000-000000000001;address 127.0.0.1 9001;model counter 1000;busy 0;heartbeat 0;resolution 1 1000;output 1 uint32;
description|slave count;uuid urn:uuid:00000000-0000-0000-0000-000000000001;address 127.0.0.1 9001;heartbeat 0;model counter 1000;output 1 uint32;|slave count;uuid 00000000-0000-0000-0000-000000000001;address 127.0.0.1 9001;model counter 1000;busy 0;heartbeat 0;resolution 1 1000;output 1 uint32;
description|slave lag-2_b;output 0 uint8;uuid 0123456789ABCDEF0123456789abcdef;address 10.0.255.7 65535;resolution 4294967295 1;heartbeat 100000;busy 50;input 18446744073709551615 int64;model lag -9223372036854775808 65536;|slave lag-2_b;uuid 01234567-89ab-cdef-0123-456789abcdef;address 10.0.255.7 65535;model lag -9223372036854775808 65536;busy 50;heartbeat 100000;resolution 4294967295 1;input 18446744073709551615 int64;output 0 uint8;
description|slave lag-2_b;uuid 01234567-89ab-cdef-0123-456789abcdef;address 10.0.255.7 65535;model lag -9223372036854775808 65536;busy 50;heartbeat 100000;resolution 4294967295 1;input 18446744073709551615 int64;output 0 uint8;|slave lag-2_b;uuid 01234567-89ab-cdef-0123-456789abcdef;address 10.0.255.7 65535;model lag -9223372036854775808 65536;busy 50;heartbeat 100000;resolution 4294967295 1;input 18446744073709551615 int64;output 0 uint8;
description|slave count;address 127.0.0.1 9001;model counter 1000;output 1 uint32;|5 MISSING
description||1 MISSING
description|;# nothing;|3 MISSING
description|uuid x;|1 MISSING
description|slave a;uuid 00000000000000000000000000000001;address 127.0.0.1 9001;model counter 1;|5 MISSING
description|slave a;uuid 00000000000000000000000000000001;address 127.0.0.1 9001;model counter 1;output 1 uint32;input 3 int32;|7 PORTS
description|slave a;# ~;|2 NOT_UTF8
description|slave a;steps 3;|2 UNKNOWN_KEY
description|slave a;slave b;|2 REPEATED
description|slave a;model gain 1;model;|3 REPEATED
description|slave a;;# one;input 1 int8;input 1 int16;|5 REPEATED
description|slave a b;|1 WORDS
description|slave a;model;|2 WORDS
description|slave 9;|1 BAD_NAME
description|slave abcdefghijklmnopqrstuvwxyz0123456;|1 BAD_NAME
description|slave a;busy +1;|2 BAD_NUMBER
description|slave a;busy 000000000000000000001;|2 BAD_NUMBER
description|slave a;address 1.2.3.256 9;|2 BAD_NUMBER
description|slave a;address 1.2.3 9;|2 BAD_NUMBER
description|slave a;input x float;|2 BAD_NUMBER
description|slave a;uuid 1;|2 BAD_UUID
description|slave a;model wave 1;|2 UNKNOWN_MODEL
description|slave a;output 1 float;|2 UNSUPPORTED_TYPE
description|slave a;output 1 int8^|2 UNSUPPORTED_TYPE
description|slave a;model lag 1 65537;|2 PARAMETERS
description|slave a;uuid 00000000000000000000000000000001;address 127.0.0.1 9001;model external;output 1 uint32;|slave a;uuid 00000000-0000-0000-0000-000000000001;address 127.0.0.1 9001;model external;busy 0;heartbeat 0;resolution 1 1000;output 1 uint32;
description|slave a;uuid 00000000000000000000000000000001;address 127.0.0.1 9001;model external 7 -1;input 2 int8;input 3 int64;output 2 uint8;output 3 int32;|slave a;uuid 00000000-0000-0000-0000-000000000001;address 127.0.0.1 9001;model external 7 -1;busy 0;heartbeat 0;resolution 1 1000;input 2 int8;input 3 int64;output 2 uint8;output 3 int32;
description|slave a;uuid 00000000000000000000000000000001;address 127.0.0.1 9001;model external 1 1 1 1 1 1 1 1 1 1 1 1 1 1 1 1 1 1 1 1 1 1 1 1 1 1 1 1 1 1 1 1 1 1 1 1 1 1 1 1 1 1 1 1 1 1 1 1 1 1 1 1 1 1 1 1 1 1 1 1 1 1 1 1;input 0 int8;input 1 int8;input 2 int8;input 3 int8;input 4 int8;input 5 int8;input 6 int8;input 7 int8;output 0 int8;output 1 int8;output 2 int8;output 3 int8;output 4 int8;output 5 int8;output 6 int8;output 7 int8;|slave a;uuid 00000000-0000-0000-0000-000000000001;address 127.0.0.1 9001;model external 1 1 1 1 1 1 1 1 1 1 1 1 1 1 1 1 1 1 1 1 1 1 1 1 1 1 1 1 1 1 1 1 1 1 1 1 1 1 1 1 1 1 1 1 1 1 1 1 1 1 1 1 1 1 1 1 1 1 1 1 1 1 1 1;busy 0;heartbeat 0;resolution 1 1000;input 0 int8;input 1 int8;input 2 int8;input 3 int8;input 4 int8;input 5 int8;input 6 int8;input 7 int8;output 0 int8;output 1 int8;output 2 int8;output 3 int8;output 4 int8;output 5 int8;output 6 int8;output 7 int8;
description|slave a;uuid 00000000000000000000000000000001;address 127.0.0.1 9001;model external;|5 MISSING
description|slave a;model external 1 1 1 1 1 1 1 1 1 1 1 1 1 1 1 1 1 1 1 1 1 1 1 1 1 1 1 1 1 1 1 1 1 1 1 1 1 1 1 1 1 1 1 1 1 1 1 1 1 1 1 1 1 1 1 1 1 1 1 1 1 1 1 1 1;|2 PARAMETERS
description|slave a;model external 1 x;|2 BAD_NUMBER
description|slave a;busy 51;|2 LIMIT
description|slave a;busy 99999999999999999999;|2 LIMIT
description|slave a;heartbeat 100001;|2 LIMIT
description|slave a;address 1.2.3.4 0;|2 LIMIT
description|slave a;model const 9223372036854775808;|2 LIMIT
description|slave a;input 0 int8;input 1 int8;input 2 int8;input 3 int8;input 4 int8;input 5 int8;input 6 int8;input 7 int8;input 8 int8;|10 LIMIT
counts||1 MISSING
counts|# ~;|1 NOT_UTF8
counts|step 3;|1 UNKNOWN_KEY
counts|steps 3;steps 4;|2 REPEATED
counts|steps;|1 WORDS
counts|steps x;|1 BAD_NUMBER
counts|steps 100001;|1 LIMIT
counts|runs 0;|1 LIMIT
counts|runs 101;|1 LIMIT
counts|step_tries 1;|1 LIMIT
counts|protocol sctp;|1 BAD_NUMBER
counts|master 127.0.0.1 0;|1 LIMIT
counts|master 127.0.0 9000;|1 BAD_NUMBER
counts|steps 3;slave a;|2 MISSING
counts|steps 3;wire a 0 b 0;|2 MISSING
counts|steps 5;master 127.0.0.1 9000;slave amp;uuid 00000000-0000-0000-0000-000000000001;address 127.0.0.1 9001;model gain 131072;input 1 int32;output 2 float64;slave acc;uuid 00000000-0000-0000-0000-000000000002;address 127.0.0.1 9002;model integrator 10 32768;input 1 int32;output 2 int32;wire amp 0 acc 0;wire acc 0 amp 0;|8 UNSUPPORTED_TYPE
counts|steps 5;master 127.0.0.1 9000;slave amp;uuid 00000000-0000-0000-0000-000000000001;address 127.0.0.1 9001;model gain 131072;input 1 int16;output 2 int32;slave acc;uuid 00000000-0000-0000-0000-000000000002;address 127.0.0.1 9002;model integrator 10 32768;input 1 int32;output 2 int32;wire amp 0 acc 0;wire acc 0 amp 0;|16 TYPE_MISMATCH
counts|runs 2;$rerun_set 2 count 0 2;set count 0 3;|10 ORDER
counts|runs 3;$rerun_set 3 count 0 2;rerun_set 2 count 0 3;|10 ORDER
counts|runs 2;$rerun_set 3 count 0 2;|9 LIMIT
counts|runs 2;$rerun_set 1 count 0 2;|9 LIMIT
counts|runs 2;$rerun_set 2 count 0 0;|9 PARAMETERS
counts|runs 100;steps 2001;master 127.0.0.1 9000;slave count;uuid 00000000-0000-0000-0000-000000000001;address 127.0.0.1 9001;model counter 1000;output 1 uint32;wire count 0 count 0;|9 LIMIT
counts|runs 100;steps 2000;master 127.0.0.1 9000;slave count;uuid 00000000-0000-0000-0000-000000000001;address 127.0.0.1 9001;model counter 1000;output 1 uint32;wire count 0 count 0;|9 UNKNOWN_PORT
counts|@slave count;uuid 00000000-0000-0000-0000-000000000001;address 127.0.0.1 9001;model limit 1000;output 1 uint32;|6 UNKNOWN_MODEL
counts|@slave count;uuid 00000000-0000-0000-0000-000000000001;address 127.0.0.1 9001;model counter 0;output 1 uint32;|6 PARAMETERS
counts|@slave count;uuid x0000000-0000-0000-0000-000000000001;address 127.0.0.1 9001;model counter 1000;output 1 uint32;|4 BAD_UUID
counts|@uuid x;|3 MISSING
counts|@wire a 0 b 0;|3 MISSING
counts|@|3 MISSING
counts|@slave 9a;|3 BAD_NAME
counts|@slave a;slave b;|4 MISSING
counts|@slave a;micro 2;|4 ORDER
counts|@slave count;address 127.0.0.1 9001;model counter 1000;output 1 uint32;|7 MISSING
counts|$input 3 int32;|9 PORTS
counts|$slave count;|8 REPEATED
counts|$slave b;address 127.0.0.1 9001;|9 SAME_ADDRESS
counts|$slave b;address 127.0.0.1 9000;|9 SAME_ADDRESS
counts|$slave b;wire count 0 b 0;|9 MISSING
counts|$every count count 2;|8 NO_WIRE
counts|$every count count 0;|8 LIMIT
counts|$wire count 0 count 0;|8 UNKNOWN_PORT
counts|$wire nobody x count 0;|8 UNKNOWN_SLAVE
counts|$wire 9 0 count 0;|8 BAD_NAME
counts|$wire count x count 0;|8 BAD_NUMBER
counts|$wire count 1 count 0;|8 UNKNOWN_PORT
counts|$wire count 0 count;|8 WORDS
counts|$set count 1 5;|8 UNKNOWN_PORT
counts|$set count 0 0;|8 PARAMETERS
counts|$set count 0 x;|8 BAD_NUMBER
counts|$set count 0 5;slave b;|9 ORDER
counts|$set count 0 5;steps 3;|9 ORDER
counts|$rerun_set 2 count 0 5;|8 LIMIT
counts|$drop 2 b0 1;|8 UNKNOWN_SLAVE
counts|$drop 1 b 1;|8 BAD_NUMBER
counts|$drop 1 b0 1000001;|8 LIMIT
counts|$copy 1 b0 1 0;|8 LIMIT
counts|$hold 1 B0 1 1001;|8 LIMIT
counts|$chaos 1 2 3 4;chaos 1 2 3;|9 REPEATED
counts|$chaos 1 1001 0 0;|8 LIMIT
counts|&wire amp 0 acc 0;|17 TWO_WIRES
counts|&every amp acc 2;every amp acc 3;|18 REPEATED
counts|&every amp amp 3;|17 NO_WIRE
counts|&set acc 0 7;set acc 2 7;|18 UNKNOWN_PORT
counts|$|3 1 1 1 0 0 0 0 0 
counts|&|5 1 1 2 2 0 0 0 0 
counts|steps 6;master 127.0.0.1 9000;slave fall;uuid 00000000-0000-0000-0000-000000000001;address 127.0.0.1 9001;model ramp 3 -1;output 1 int32;slave da;uuid 00000000-0000-0000-0000-000000000002;address 127.0.0.1 9002;model divider 12;input 1 int32;output 2 int32;slave db;uuid 00000000-0000-0000-0000-000000000003;address 127.0.0.1 9003;model divider -7;input 1 int32;output 2 int32;wire fall 0 da 0;wire fall 0 db 0;|6 1 1 3 2 0 0 0 0 
counts|steps 1000;master 127.0.0.1 9000;slave osc;uuid 00000000-0000-0000-0000-000000000001;address 127.0.0.1 9001;model oscillator 1000 0 6554 6554;output 1 int32;output 2 int32;slave smooth;uuid 00000000-0000-0000-0000-000000000002;address 127.0.0.1 9002;model lag 0 16384;input 1 int32;output 2 int32;slave clip;uuid 00000000-0000-0000-0000-000000000003;address 127.0.0.1 9003;model limiter -500 500;input 1 int32;output 2 int32;slave vessel;uuid 00000000-0000-0000-0000-000000000004;address 127.0.0.1 9004;model tank 2000 65536 655;input 1 int32;output 2 int32;output 3 int32;wire osc 0 smooth 0;wire smooth 0 clip 0;wire clip 0 vessel 0;chaos 7 0 200 200;|1000 1 1 4 3 0 0 0 0 
counts|&every amp acc 2;drop 1 f0 5;|5 1 1 2 2 0 1 0 1 
counts|runs 2;$rerun_set 2 count 0 2;|3 1 2 1 0 0 0 1 0 
counts|# c^;micro 5^;protocol tcp^;&set amp 0 5;set acc 0 -7;chaos 7 0 1 2;copy 2 B0 0 3|5 5 1 2 2 2 0 0 1 
counts|@slave s11;uuid 00000000000000000000000000000011;address 127.0.0.1 9011;model counter 5;output 1 uint8;slave s12;uuid 00000000000000000000000000000012;address 127.0.0.1 9012;model counter 5;output 1 uint8;slave s13;uuid 00000000000000000000000000000013;address 127.0.0.1 9013;model counter 5;output 1 uint8;slave s14;uuid 00000000000000000000000000000014;address 127.0.0.1 9014;model counter 5;output 1 uint8;slave s15;uuid 00000000000000000000000000000015;address 127.0.0.1 9015;model counter 5;output 1 uint8;slave s16;uuid 00000000000000000000000000000016;address 127.0.0.1 9016;model counter 5;output 1 uint8;slave s17;uuid 00000000000000000000000000000017;address 127.0.0.1 9017;model counter 5;output 1 uint8;slave s18;uuid 00000000000000000000000000000018;address 127.0.0.1 9018;model counter 5;output 1 uint8;slave s19;uuid 00000000000000000000000000000019;address 127.0.0.1 9019;model counter 5;output 1 uint8;slave s20;uuid 00000000000000000000000000000020;address 127.0.0.1 9020;model counter 5;output 1 uint8;slave s21;uuid 00000000000000000000000000000021;address 127.0.0.1 9021;model counter 5;output 1 uint8;slave s22;uuid 00000000000000000000000000000022;address 127.0.0.1 9022;model counter 5;output 1 uint8;slave s23;uuid 00000000000000000000000000000023;address 127.0.0.1 9023;model counter 5;output 1 uint8;slave s24;uuid 00000000000000000000000000000024;address 127.0.0.1 9024;model counter 5;output 1 uint8;slave s25;uuid 00000000000000000000000000000025;address 127.0.0.1 9025;model counter 5;output 1 uint8;slave s26;uuid 00000000000000000000000000000026;address 127.0.0.1 9026;model counter 5;output 1 uint8;|3 1 1 16 0 0 0 0 0 
counts|@slave s11;uuid 00000000000000000000000000000011;address 127.0.0.1 9011;model counter 5;output 1 uint8;slave s12;uuid 00000000000000000000000000000012;address 127.0.0.1 9012;model counter 5;output 1 uint8;slave s13;uuid 00000000000000000000000000000013;address 127.0.0.1 9013;model counter 5;output 1 uint8;slave s14;uuid 00000000000000000000000000000014;address 127.0.0.1 9014;model counter 5;output 1 uint8;slave s15;uuid 00000000000000000000000000000015;address 127.0.0.1 9015;model counter 5;output 1 uint8;slave s16;uuid 00000000000000000000000000000016;address 127.0.0.1 9016;model counter 5;output 1 uint8;slave s17;uuid 00000000000000000000000000000017;address 127.0.0.1 9017;model counter 5;output 1 uint8;slave s18;uuid 00000000000000000000000000000018;address 127.0.0.1 9018;model counter 5;output 1 uint8;slave s19;uuid 00000000000000000000000000000019;address 127.0.0.1 9019;model counter 5;output 1 uint8;slave s20;uuid 00000000000000000000000000000020;address 127.0.0.1 9020;model counter 5;output 1 uint8;slave s21;uuid 00000000000000000000000000000021;address 127.0.0.1 9021;model counter 5;output 1 uint8;slave s22;uuid 00000000000000000000000000000022;address 127.0.0.1 9022;model counter 5;output 1 uint8;slave s23;uuid 00000000000000000000000000000023;address 127.0.0.1 9023;model counter 5;output 1 uint8;slave s24;uuid 00000000000000000000000000000024;address 127.0.0.1 9024;model counter 5;output 1 uint8;slave s25;uuid 00000000000000000000000000000025;address 127.0.0.1 9025;model counter 5;output 1 uint8;slave s26;uuid 00000000000000000000000000000026;address 127.0.0.1 9026;model counter 5;output 1 uint8;slave s27;|83 LIMIT
counts|$drop 0 01 0;drop 0 01 0;drop 0 01 0;drop 0 01 0;drop 0 01 0;drop 0 01 0;drop 0 01 0;drop 0 01 0;drop 0 01 0;drop 0 01 0;drop 0 01 0;drop 0 01 0;drop 0 01 0;drop 0 01 0;drop 0 01 0;drop 0 01 0;drop 0 01 0;drop 0 01 0;drop 0 01 0;drop 0 01 0;drop 0 01 0;drop 0 01 0;drop 0 01 0;drop 0 01 0;drop 0 01 0;drop 0 01 0;drop 0 01 0;drop 0 01 0;drop 0 01 0;drop 0 01 0;drop 0 01 0;drop 0 01 0;drop 0 01 0;drop 0 01 0;drop 0 01 0;drop 0 01 0;drop 0 01 0;drop 0 01 0;drop 0 01 0;drop 0 01 0;drop 0 01 0;drop 0 01 0;drop 0 01 0;drop 0 01 0;drop 0 01 0;drop 0 01 0;drop 0 01 0;drop 0 01 0;drop 0 01 0;drop 0 01 0;drop 0 01 0;drop 0 01 0;drop 0 01 0;drop 0 01 0;drop 0 01 0;drop 0 01 0;drop 0 01 0;drop 0 01 0;drop 0 01 0;drop 0 01 0;drop 0 01 0;drop 0 01 0;drop 0 01 0;drop 0 01 0;|3 1 1 1 0 0 0 0 64 
counts|$drop 0 01 0;drop 0 01 0;drop 0 01 0;drop 0 01 0;drop 0 01 0;drop 0 01 0;drop 0 01 0;drop 0 01 0;drop 0 01 0;drop 0 01 0;drop 0 01 0;drop 0 01 0;drop 0 01 0;drop 0 01 0;drop 0 01 0;drop 0 01 0;drop 0 01 0;drop 0 01 0;drop 0 01 0;drop 0 01 0;drop 0 01 0;drop 0 01 0;drop 0 01 0;drop 0 01 0;drop 0 01 0;drop 0 01 0;drop 0 01 0;drop 0 01 0;drop 0 01 0;drop 0 01 0;drop 0 01 0;drop 0 01 0;drop 0 01 0;drop 0 01 0;drop 0 01 0;drop 0 01 0;drop 0 01 0;drop 0 01 0;drop 0 01 0;drop 0 01 0;drop 0 01 0;drop 0 01 0;drop 0 01 0;drop 0 01 0;drop 0 01 0;drop 0 01 0;drop 0 01 0;drop 0 01 0;drop 0 01 0;drop 0 01 0;drop 0 01 0;drop 0 01 0;drop 0 01 0;drop 0 01 0;drop 0 01 0;drop 0 01 0;drop 0 01 0;drop 0 01 0;drop 0 01 0;drop 0 01 0;drop 0 01 0;drop 0 01 0;drop 0 01 0;drop 0 01 0;drop 0 01 0;|72 LIMIT
parts|turn_limit 1000;tries 20;watch_turns 21;state_limit 201;retry_turns 22;data_turns 23;step_tries 2;runs 3;protocol tcp;steps 7;micro 2;master 10.0.0.1 9000;slave amp;uuid 00000000-0000-0000-0000-000000000001;address 127.0.0.1 9001;model gain 131072;input 1 int32;output 2 int32;slave acc;uuid 00000000-0000-0000-0000-000000000002;address 127.0.0.1 9002;model integrator 10 32768;input 1 int32;output 2 int32;wire amp 0 acc 0;wire acc 0 amp 0;set acc 1 -5;set amp 0 65536;every acc amp 3;every amp acc 1000;rerun_set 2 acc 0 11;rerun_set 3 amp 0 -1;drop 0 01 0;copy 1 F0 5 1000;hold 2 b0 1000000 1;chaos 18446744073709551615 0 200 1000;|7 2 3 2 2 2 2 2 3 amp acc Tcp Address { ip: 167772161, port: 9000 } Limits { turn_limit: 1000, tries: 20, watch_turns: 21, state_limit: 201, retry_turns: 22, data_turns: 23, step_tries: 2 } [Wire { from: 1, out: 0, to: 2, into: 0 }, Wire { from: 2, out: 0, to: 1, into: 0 }] [Setting { slave: 2, index: 1, value: -5 }, Setting { slave: 1, index: 0, value: 65536 }] [Every { from: 2, to: 1, q: 3 }, Every { from: 1, to: 2, q: 1000 }] [Rerun { run: 2, slave: 2, index: 0, value: 11 }, Rerun { run: 3, slave: 1, index: 0, value: -1 }] [Drop { end: 0, type_id: 1, nth: 0 }, Copy { end: 1, type_id: 240, nth: 5, lag: 1000 }, Hold { end: 2, type_id: 176, nth: 1000000, lag: 1 }] Some(Chaos { start: 18446744073709551615, drop: 0, repeat: 200, hold: 1000 })
rows|$|0 /1 /2 /3 /4 None
rows|&|0 10 /20 10 /20 20 /40 30 /60 50 /100 80 /6 None
rows|steps 6;master 127.0.0.1 9000;slave fall;uuid 00000000-0000-0000-0000-000000000001;address 127.0.0.1 9001;model ramp 3 -1;output 1 int32;slave da;uuid 00000000-0000-0000-0000-000000000002;address 127.0.0.1 9002;model divider 12;input 1 int32;output 2 int32;slave db;uuid 00000000-0000-0000-0000-000000000003;address 127.0.0.1 9003;model divider -7;input 1 int32;output 2 int32;wire fall 0 da 0;wire fall 0 db 0;|3 0 0 /2 262144 -152918 /1 393216 -229376 /0 786432 -458752 /4 Some(RefFault { slave: 2, run: 1, step: 4, code: DivideByZero })
rows|steps 2;master 127.0.0.1 9000;slave src;uuid 00000000-0000-0000-0000-000000000001;address 127.0.0.1 9001;model const 3;output 1 int32;slave amp;uuid 00000000-0000-0000-0000-000000000002;address 127.0.0.1 9002;model gain 131072;input 1 int32;output 2 int32;slave top;uuid 00000000-0000-0000-0000-000000000003;address 127.0.0.1 9003;model gain 65536;input 1 int32;output 2 int32;wire src 0 amp 0;wire amp 0 top 0;|3 0 0 /3 6 0 /3 6 6 /3 None
rows|&every amp acc 2;|0 10 /20 10 /20 10 /20 20 /40 30 /60 50 /6 None
rows|runs 2;$rerun_set 2 count 0 2;|0 /1 /2 /3 /0 /1 /0 /1 /8 None
rows|runs 2;steps 3;master 127.0.0.1 9000;slave fall;uuid 00000000-0000-0000-0000-000000000001;address 127.0.0.1 9001;model ramp 3 -1;output 1 int32;slave da;uuid 00000000-0000-0000-0000-000000000002;address 127.0.0.1 9002;model divider 12;input 1 int32;output 2 int32;slave db;uuid 00000000-0000-0000-0000-000000000003;address 127.0.0.1 9003;model divider -7;input 1 int32;output 2 int32;wire fall 0 da 0;wire fall 0 db 0;rerun_set 2 fall 0 1;|3 0 0 /2 262144 -152918 /1 393216 -229376 /0 786432 -458752 /1 0 0 /0 786432 -458752 /6 Some(RefFault { slave: 2, run: 2, step: 2, code: DivideByZero })
rows|steps 3;master 127.0.0.1 9000;slave count;uuid 00000000-0000-0000-0000-000000000001;address 127.0.0.1 9001;model const 300;output 1 uint8;|0 Some(RefFault { slave: 1, run: 1, step: 0, code: OutOfRange })
rows|steps 1000;master 127.0.0.1 9000;slave osc;uuid 00000000-0000-0000-0000-000000000001;address 127.0.0.1 9001;model oscillator 1000 0 6554 6554;output 1 int32;output 2 int32;slave smooth;uuid 00000000-0000-0000-0000-000000000002;address 127.0.0.1 9002;model lag 0 16384;input 1 int32;output 2 int32;slave clip;uuid 00000000-0000-0000-0000-000000000003;address 127.0.0.1 9003;model limiter -500 500;input 1 int32;output 2 int32;slave vessel;uuid 00000000-0000-0000-0000-000000000004;address 127.0.0.1 9004;model tank 2000 65536 655;input 1 int32;output 2 int32;output 3 int32;wire osc 0 smooth 0;wire smooth 0 clip 0;wire clip 0 vessel 0;chaos 7 0 200 200;|1000 0 0 0 2000 19 /1000 -100 250 0 1981 19 /989 -198 437 250 1962 19 /969 -294 575 437 2193 21 /939 -387 673 500 2609 26 /900 -477 739 500 3083 30 /852 -562 779 500 3553 35 /795 -641 797 500 4018 40 /1001 None";

fn tell_refused(told: &mut String, refused: TextRefused) -> Result<(), Fail> {
    match refused {
        TextRefused::Fault(fault) => {
            let line = fault.line;
            let word = fault.why.word();
            write!(told, "{line} {word}")?;
        }
        TextRefused::OutOfMemory => told.push_str("OutOfMemory")?,
    }
    Ok(())
}

/// Appends the canonical text of a description.
pub fn tell_description(alloc: Global, told: &mut String, text: &[u8]) -> Result<(), Fail> {
    match read_desc(alloc, text) {
        Ok(desc) => {
            let printed = print_desc(alloc, &desc)?;
            Ok(tell_folded(told, printed.as_str())?)
        }
        Err(refused) => tell_refused(told, refused),
    }
}

/// Appends what is asked of a scenario.
pub fn tell_scenario(
    alloc: Global,
    told: &mut String,
    asked: &str,
    text: &[u8],
) -> Result<(), Fail> {
    match read_scenario(alloc, text) {
        Ok(scenario) => match asked {
            "counts" => tell_counts(told, &scenario),
            "parts" => tell_parts(told, &scenario),
            _ => tell_reference(alloc, told, &scenario),
        },
        Err(refused) => tell_refused(told, refused),
    }
}

fn counts_of(scenario: &Scenario) -> [usize; 9] {
    [
        scenario.steps as usize,
        scenario.micro as usize,
        scenario.runs as usize,
        scenario.slaves.as_slice().len(),
        scenario.wires.as_slice().len(),
        scenario.settings.as_slice().len(),
        scenario.every.as_slice().len(),
        scenario.reruns.as_slice().len(),
        scenario.net.lines.as_slice().len(),
    ]
}

fn tell_counts(told: &mut String, scenario: &Scenario) -> Result<(), Fail> {
    for count in counts_of(scenario) {
        write!(told, "{count} ")?;
    }
    Ok(())
}

fn tell_names(told: &mut String, scenario: &Scenario) -> Result<(), Fail> {
    for slave in scenario.slaves.as_slice() {
        write!(told, "{} ", slave.name.as_str())?;
    }
    Ok(())
}

fn tell_parts(told: &mut String, scenario: &Scenario) -> Result<(), Fail> {
    tell_counts(told, scenario)?;
    tell_names(told, scenario)?;
    let Scenario {
        protocol,
        master,
        limits,
        wires,
        settings,
        every,
        reruns,
        net,
        ..
    } = scenario;
    write!(told, "{protocol:?} {master:?} {limits:?} ")?;
    write!(told, "{:?} {:?} ", wires.as_slice(), settings.as_slice())?;
    write!(told, "{:?} {:?} ", every.as_slice(), reruns.as_slice())?;
    write!(told, "{:?} {:?}", net.lines.as_slice(), net.chaos)?;
    Ok(())
}

/// Appends the first eight rows, by row, slave and port, and how many there are.
fn tell_rows(told: &mut String, rows: &Rows) -> Result<(), Fail> {
    for place in 0..rows.len().min(8) {
        for value in rows.row(place) {
            write!(told, "{value} ")?;
        }
        told.push('/')?;
    }
    write!(told, "{}", rows.len())?;
    Ok(())
}

/// Whether each of the slaves has a model here.
fn have_models(slaves: &[SlaveDesc]) -> bool
    ensures { result ≡ true → HaveModels slaves.now }
{
    for place in 0..slaves.len() {
        if slaves[place].kind.is_external() {
            return false;
        }
    }
    true
}

fn tell_reference(alloc: Global, told: &mut String, scenario: &Scenario) -> Result<(), Fail>
    requires { IsScenario scenario.now }
{
    if !have_models(scenario.slaves.as_slice()) {
        told.push_str("no models")?;
        return Ok(());
    }
    let found = reference(alloc, scenario)?;
    tell_rows(told, &found.rows)?;
    write!(told, " {:?}", found.fault)?;
    Ok(())
}
