use crate::rows::{Case, More, Row, row};
use crate::sample::Facts;

// v1 to v1e are thirty names, of which a sum has 31 nodes.
pub static NODES: [Row; 9] = [
    row!("a sum of 32 nodes"; b"\x48\x01\xd8"; "step";
        "rax=v1+v2+v3+v4+v5+v6+v7+v8+v9+va+vb+vc+vd+ve+vf+v10+v11+v12+v13+v14+v15+v16+v17+v18+v19+v1a+v1b+v1c+v1d+v1e"
        "" "" "" => 0x40_007b
        "rax=rbx0+v1+v2+v3+v4+v5+v6+v7+v8+v9+va+vb+vc+vd+ve+vf+v10+v11+v12+v13+v14+v15+v16+v17+v18+v19+v1a+v1b+v1c+v1d+v1e"
        "" "" "" [More::Register(0, "rax=v400078")]),
    row!("a sum of 33 nodes"; b"\x48\x01\xd8"; "step";
        "rax=v1+v2+v3+v4+v5+v6+v7+v8+v9+va+vb+vc+vd+ve+vf+v10+v11+v12+v13+v14+v15+v16+v17+v18+v19+v1a+v1b+v1c+v1d+v1e+v1f"
        "" "" "" => 0x40_007b "rax=v400078" "" "" "" []),
    row!("an operand of 32 nodes by its fit"; b"\x89\xd8"; "step";
        "rbx=v1+v2+v3+v4+v5+v6+v7+v8+v9+va+vb+vc+vd+ve+vf+v10+v11+v12+v13+v14+v15+v16+v17+v18+v19+v1a+v1b+v1c+v1d"
        "" "" "" => 0x40_007a
        "rax=zx32(v1+v2+v3+v4+v5+v6+v7+v8+v9+va+vb+vc+vd+ve+vf+v10+v11+v12+v13+v14+v15+v16+v17+v18+v19+v1a+v1b+v1c+v1d) \
rbx=v1+v2+v3+v4+v5+v6+v7+v8+v9+va+vb+vc+vd+ve+vf+v10+v11+v12+v13+v14+v15+v16+v17+v18+v19+v1a+v1b+v1c+v1d" "" "" "" []),
    row!("an operand of 33 nodes by its fit"; b"\x89\xd8"; "step";
        "rbx=v1+v2+v3+v4+v5+v6+v7+v8+v9+va+vb+vc+vd+ve+vf+v10+v11+v12+v13+v14+v15+v16+v17+v18+v19+v1a+v1b+v1c+v1d+v1e"
        "" "" "" => 0x40_007a "rax=v400078 \
rbx=v1+v2+v3+v4+v5+v6+v7+v8+v9+va+vb+vc+vd+ve+vf+v10+v11+v12+v13+v14+v15+v16+v17+v18+v19+v1a+v1b+v1c+v1d+v1e"
        "" "" "" []),
    row!("an operand over the limit, where the result would be small"; b"\x29\xc0"; "step";
        "rax=v1+v2+v3+v4+v5+v6+v7+v8+v9+va+vb+vc+vd+ve+vf+v10+v11+v12+v13+v14+v15+v16+v17+v18+v19+v1a+v1b+v1c+v1d+v1e"
        "" "" "" => 0x40_007a "rax=v400078" "" "" "" [More::Register(0, "rax=0")]),
    row!("an address of which only a part is over the limit"; b"\x64\x48\x8b\x04\x3b"; "step";
        "rbx=-fs+v1+v2+v3+v4+v5+v6+v7+v8+v9+va+vb+vc+vd+ve+vf+v10+v11+v12+v13+v14+v15+v16+v17+v18+v19+v1a+v1b+v1c+v1d+v1e"
        "" "" "" => 0x40_007d "rax=v400078 \
rbx=-fs+v1+v2+v3+v4+v5+v6+v7+v8+v9+va+vb+vc+vd+ve+vf+v10+v11+v12+v13+v14+v15+v16+v17+v18+v19+v1a+v1b+v1c+v1d+v1e"
        "" "" "[rdi0+v1+v2+v3+v4+v5+v6+v7+v8+v9+va+vb+vc+vd+ve+vf+v10+v11+v12+v13+v14+v15+v16+v17+v18+v19+v1a+v1b+v1c+\
v1d+v1e;8]=v400078" []),
    row!("an address over the limit"; b"\x48\x8b\x04\x3b"; "step";
        "rbx=v1+v2+v3+v4+v5+v6+v7+v8+v9+va+vb+vc+vd+ve+vf+v10+v11+v12+v13+v14+v15+v16+v17+v18+v19+v1a+v1b+v1c+v1d+v1e+v1f"
        "" "" "[rsp0;8]=ra" => 0x40_007c "rax=v400078 \
rbx=v1+v2+v3+v4+v5+v6+v7+v8+v9+va+vb+vc+vd+ve+vf+v10+v11+v12+v13+v14+v15+v16+v17+v18+v19+v1a+v1b+v1c+v1d+v1e+v1f"
        "" "" "[rsp0;8]=ra" []),
    row!("a key of 32 nodes"; b"\x74\x05"; "step"; ""
        "8 v1+v2+v3+v4+v5+v6+v7+v8+v9+va+vb+vc+vd+ve+vf+v10+v11+v12+v13+v14+v15+v16+v17+v18+v19+v1a+v1b+v1c+v1d 3"
        "" "" =>
        0x40_007f "" ""
        "zx8(v1+v2+v3+v4+v5+v6+v7+v8+v9+va+vb+vc+vd+ve+vf+v10+v11+v12+v13+v14+v15+v16+v17+v18+v19+v1a+v1b+v1c+v1d) 3..3"
        "" []; 0x40_007a "" "" "" "" []),
    row!("a key of 33 nodes"; b"\x74\x05"; "step"; ""
        "8 v1+v2+v3+v4+v5+v6+v7+v8+v9+va+vb+vc+vd+ve+vf+v10+v11+v12+v13+v14+v15+v16+v17+v18+v19+v1a+v1b+v1c+v1d+v1e 3"
        "" "" =>
        0x40_007f "" "" "" "" [More::Bound(0,
        "v1+v2+v3+v4+v5+v6+v7+v8+v9+va+vb+vc+vd+ve+vf+v10+v11+v12+v13+v14+v15+v16+v17+v18+v19+v1a+v1b+v1c+v1d+v1e 3..3")];
        0x40_007a "" "" "" "" []),
];

pub static BOUNDS: [Row; 6] = [
    row!("a sixteenth bound"; b"\x74\x05"; "step"; "" "64 rdi0 3"
        "v1 0..1\nb v2 0..1\nb v3 0..1\nb v4 0..1\nb v5 0..1\nb v6 0..1\nb v7 0..1\nb v8 0..1\nb v9 0..1\nb va 0..1\
\nb vb 0..1\nb vc 0..1\nb vd 0..1\nb ve 0..1\nb vf 0..1" "" =>
        0x40_007f "" "64 rdi0 3" "rdi0 3..3\nb v1 0..1\nb vf 0..1" "" []; 0x40_007a "" "64 rdi0 3" "v1 0..1\nb vf 0..1" "" []),
    row!("a seventeenth bound"; b"\x74\x05"; "step"; "" "64 rdi0 3"
        "v1 0..1\nb v2 0..1\nb v3 0..1\nb v4 0..1\nb v5 0..1\nb v6 0..1\nb v7 0..1\nb v8 0..1\nb v9 0..1\nb va 0..1\
\nb vb 0..1\nb vc 0..1\nb vd 0..1\nb ve 0..1\nb vf 0..1\nb v10 0..1" "" =>
        0x40_007f "" "64 rdi0 3" "v1 0..1\nb vf 0..1\nb v10 0..1" "" [More::Bound(0, "rdi0 3..3\nb v1 0..1")];
        0x40_007a "" "64 rdi0 3" "v1 0..1\nb v10 0..1" "" []),
    row!("a range of one of sixteen"; b"\x74\x05"; "step"; "" "64 v3 1"
        "v1 0..1\nb v2 0..1\nb v3 0..1\nb v4 0..1\nb v5 0..1\nb v6 0..1\nb v7 0..1\nb v8 0..1\nb v9 0..1\nb va 0..1\
\nb vb 0..1\nb vc 0..1\nb vd 0..1\nb ve 0..1\nb vf 0..1\nb v10 0..1" "" =>
        0x40_007f "" "64 v3 1" "v2 0..1\nb v3 1..1\nb v10 0..1" "" [];
        0x40_007a "" "64 v3 1" "v3 0..1\nb v10 0..1" "" [More::Bound(0, "v3 0..0")]),
    row!("a table's numbers as a sixteenth bound"; b"\x48\x8b\x04\xfd\xb0\0\x40\0"; "step"; "" "" "rdi0 1..1\
\nb v1 0..1\nb v2 0..1\nb v3 0..1\nb v4 0..1\nb v5 0..1\nb v6 0..1\nb v7 0..1\nb v8 0..1\nb v9 0..1\nb va 0..1\
\nb vb 0..1\nb vc 0..1\nb vd 0..1\nb ve 0..1" "" =>
        0x40_0080 "rax=v400078" "" "rdi0 1..1\nb ve 0..1\nb v400078 {0x400011}" "" []),
    row!("a table's numbers as a seventeenth bound"; b"\x48\x8b\x04\xfd\xb0\0\x40\0"; "step"; "" "" "rdi0 1..1\
\nb v1 0..1\nb v2 0..1\nb v3 0..1\nb v4 0..1\nb v5 0..1\nb v6 0..1\nb v7 0..1\nb v8 0..1\nb v9 0..1\nb va 0..1\
\nb vb 0..1\nb vc 0..1\nb vd 0..1\nb ve 0..1\nb vf 0..1" "" =>
        0x40_0080 "rax=v400078" "" "rdi0 1..1\nb vf 0..1" "" [More::Bound(2, "rdi0 1..1\nb vf 0..1\nb v400078 {0x400011}"),
            More::Register(0, "rax=0x400011")]),
    row!("a jump by a table, with sixteen bounds"; b"\xff\x24\xfd\xb0\0\x40\0"; "step"; "" "" "rdi0 1..1\
\nb v1 0..1\nb v2 0..1\nb v3 0..1\nb v4 0..1\nb v5 0..1\nb v6 0..1\nb v7 0..1\nb v8 0..1\nb v9 0..1\nb va 0..1\
\nb vb 0..1\nb vc 0..1\nb vd 0..1\nb ve 0..1\nb vf 0..1" "" => unresolved),
];

// Cells one beside the other from the entry's stack pointer up.
pub static CELLS: [Row; 5] = [
    row!("a 64th cell"; b"\x53"; "step"; "" "" ""
        "[rsp0;8]\nc [rsp0+8;8]\nc [rsp0+16;8]\nc [rsp0+24;8]\nc [rsp0+32;8]\nc [rsp0+40;8]\nc [rsp0+48;8]\
\nc [rsp0+56;8]\nc [rsp0+64;8]\nc [rsp0+72;8]\nc [rsp0+80;8]\nc [rsp0+88;8]\nc [rsp0+96;8]\nc [rsp0+104;8]\
\nc [rsp0+112;8]\nc [rsp0+120;8]\nc [rsp0+128;8]\nc [rsp0+136;8]\nc [rsp0+144;8]\nc [rsp0+152;8]\
\nc [rsp0+160;8]\nc [rsp0+168;8]\nc [rsp0+176;8]\nc [rsp0+184;8]\nc [rsp0+192;8]\nc [rsp0+200;8]\
\nc [rsp0+208;8]\nc [rsp0+216;8]\nc [rsp0+224;8]\nc [rsp0+232;8]\nc [rsp0+240;8]\nc [rsp0+248;8]\
\nc [rsp0+256;8]\nc [rsp0+264;8]\nc [rsp0+272;8]\nc [rsp0+280;8]\nc [rsp0+288;8]\nc [rsp0+296;8]\
\nc [rsp0+304;8]\nc [rsp0+312;8]\nc [rsp0+320;8]\nc [rsp0+328;8]\nc [rsp0+336;8]\nc [rsp0+344;8]\
\nc [rsp0+352;8]\nc [rsp0+360;8]\nc [rsp0+368;8]\nc [rsp0+376;8]\nc [rsp0+384;8]\nc [rsp0+392;8]\
\nc [rsp0+400;8]\nc [rsp0+408;8]\nc [rsp0+416;8]\nc [rsp0+424;8]\nc [rsp0+432;8]\nc [rsp0+440;8]\
\nc [rsp0+448;8]\nc [rsp0+456;8]\nc [rsp0+464;8]\nc [rsp0+472;8]\nc [rsp0+480;8]\nc [rsp0+488;8]\
\nc [rsp0+496;8]" =>
        0x40_0079 "rsp=rsp0-8" "" "" "[rsp0;8]\nc [rsp0+496;8]\nc [rsp0-8;8]=rbx0" []),
    row!("a 65th cell"; b"\x53"; "step"; "" "" ""
        "[rsp0;8]\nc [rsp0+8;8]\nc [rsp0+16;8]\nc [rsp0+24;8]\nc [rsp0+32;8]\nc [rsp0+40;8]\nc [rsp0+48;8]\
\nc [rsp0+56;8]\nc [rsp0+64;8]\nc [rsp0+72;8]\nc [rsp0+80;8]\nc [rsp0+88;8]\nc [rsp0+96;8]\nc [rsp0+104;8]\
\nc [rsp0+112;8]\nc [rsp0+120;8]\nc [rsp0+128;8]\nc [rsp0+136;8]\nc [rsp0+144;8]\nc [rsp0+152;8]\
\nc [rsp0+160;8]\nc [rsp0+168;8]\nc [rsp0+176;8]\nc [rsp0+184;8]\nc [rsp0+192;8]\nc [rsp0+200;8]\
\nc [rsp0+208;8]\nc [rsp0+216;8]\nc [rsp0+224;8]\nc [rsp0+232;8]\nc [rsp0+240;8]\nc [rsp0+248;8]\
\nc [rsp0+256;8]\nc [rsp0+264;8]\nc [rsp0+272;8]\nc [rsp0+280;8]\nc [rsp0+288;8]\nc [rsp0+296;8]\
\nc [rsp0+304;8]\nc [rsp0+312;8]\nc [rsp0+320;8]\nc [rsp0+328;8]\nc [rsp0+336;8]\nc [rsp0+344;8]\
\nc [rsp0+352;8]\nc [rsp0+360;8]\nc [rsp0+368;8]\nc [rsp0+376;8]\nc [rsp0+384;8]\nc [rsp0+392;8]\
\nc [rsp0+400;8]\nc [rsp0+408;8]\nc [rsp0+416;8]\nc [rsp0+424;8]\nc [rsp0+432;8]\nc [rsp0+440;8]\
\nc [rsp0+448;8]\nc [rsp0+456;8]\nc [rsp0+464;8]\nc [rsp0+472;8]\nc [rsp0+480;8]\nc [rsp0+488;8]\
\nc [rsp0+496;8]\nc [rsp0+504;8]" =>
        0x40_0079 "rsp=rsp0-8" "" "" "[rsp0;8]\nc [rsp0+504;8]" [More::Cell(1, "[rsp0+504;8]\nc [rsp0-8;8]")]),
    row!("a 64th cell by a load"; b"\x48\x8b\x44\x24\xf8"; "step"; "" "" ""
        "[rsp0;8]\nc [rsp0+8;8]\nc [rsp0+16;8]\nc [rsp0+24;8]\nc [rsp0+32;8]\nc [rsp0+40;8]\nc [rsp0+48;8]\
\nc [rsp0+56;8]\nc [rsp0+64;8]\nc [rsp0+72;8]\nc [rsp0+80;8]\nc [rsp0+88;8]\nc [rsp0+96;8]\nc [rsp0+104;8]\
\nc [rsp0+112;8]\nc [rsp0+120;8]\nc [rsp0+128;8]\nc [rsp0+136;8]\nc [rsp0+144;8]\nc [rsp0+152;8]\
\nc [rsp0+160;8]\nc [rsp0+168;8]\nc [rsp0+176;8]\nc [rsp0+184;8]\nc [rsp0+192;8]\nc [rsp0+200;8]\
\nc [rsp0+208;8]\nc [rsp0+216;8]\nc [rsp0+224;8]\nc [rsp0+232;8]\nc [rsp0+240;8]\nc [rsp0+248;8]\
\nc [rsp0+256;8]\nc [rsp0+264;8]\nc [rsp0+272;8]\nc [rsp0+280;8]\nc [rsp0+288;8]\nc [rsp0+296;8]\
\nc [rsp0+304;8]\nc [rsp0+312;8]\nc [rsp0+320;8]\nc [rsp0+328;8]\nc [rsp0+336;8]\nc [rsp0+344;8]\
\nc [rsp0+352;8]\nc [rsp0+360;8]\nc [rsp0+368;8]\nc [rsp0+376;8]\nc [rsp0+384;8]\nc [rsp0+392;8]\
\nc [rsp0+400;8]\nc [rsp0+408;8]\nc [rsp0+416;8]\nc [rsp0+424;8]\nc [rsp0+432;8]\nc [rsp0+440;8]\
\nc [rsp0+448;8]\nc [rsp0+456;8]\nc [rsp0+464;8]\nc [rsp0+472;8]\nc [rsp0+480;8]\nc [rsp0+488;8]\
\nc [rsp0+496;8]" =>
        0x40_007d "rax=v400078" "" "" "[rsp0;8]\nc [rsp0+496;8]\nc [rsp0-8;8]=v400078" []),
    row!("a 65th cell by a load"; b"\x48\x8b\x44\x24\xf8"; "step"; "" "" ""
        "[rsp0;8]\nc [rsp0+8;8]\nc [rsp0+16;8]\nc [rsp0+24;8]\nc [rsp0+32;8]\nc [rsp0+40;8]\nc [rsp0+48;8]\
\nc [rsp0+56;8]\nc [rsp0+64;8]\nc [rsp0+72;8]\nc [rsp0+80;8]\nc [rsp0+88;8]\nc [rsp0+96;8]\nc [rsp0+104;8]\
\nc [rsp0+112;8]\nc [rsp0+120;8]\nc [rsp0+128;8]\nc [rsp0+136;8]\nc [rsp0+144;8]\nc [rsp0+152;8]\
\nc [rsp0+160;8]\nc [rsp0+168;8]\nc [rsp0+176;8]\nc [rsp0+184;8]\nc [rsp0+192;8]\nc [rsp0+200;8]\
\nc [rsp0+208;8]\nc [rsp0+216;8]\nc [rsp0+224;8]\nc [rsp0+232;8]\nc [rsp0+240;8]\nc [rsp0+248;8]\
\nc [rsp0+256;8]\nc [rsp0+264;8]\nc [rsp0+272;8]\nc [rsp0+280;8]\nc [rsp0+288;8]\nc [rsp0+296;8]\
\nc [rsp0+304;8]\nc [rsp0+312;8]\nc [rsp0+320;8]\nc [rsp0+328;8]\nc [rsp0+336;8]\nc [rsp0+344;8]\
\nc [rsp0+352;8]\nc [rsp0+360;8]\nc [rsp0+368;8]\nc [rsp0+376;8]\nc [rsp0+384;8]\nc [rsp0+392;8]\
\nc [rsp0+400;8]\nc [rsp0+408;8]\nc [rsp0+416;8]\nc [rsp0+424;8]\nc [rsp0+432;8]\nc [rsp0+440;8]\
\nc [rsp0+448;8]\nc [rsp0+456;8]\nc [rsp0+464;8]\nc [rsp0+472;8]\nc [rsp0+480;8]\nc [rsp0+488;8]\
\nc [rsp0+496;8]\nc [rsp0+504;8]" =>
        0x40_007d "rax=v400078" "" "" "[rsp0;8]\nc [rsp0+504;8]" [More::Cell(1, "[rsp0+504;8]\nc [rsp0-8;8]")]),
    row!("a cell that takes two of 64"; b"\x48\x89\x7c\x24\x04"; "step"; "" "" ""
        "[rsp0;8]\nc [rsp0+8;8]\nc [rsp0+16;8]\nc [rsp0+24;8]\nc [rsp0+32;8]\nc [rsp0+40;8]\nc [rsp0+48;8]\
\nc [rsp0+56;8]\nc [rsp0+64;8]\nc [rsp0+72;8]\nc [rsp0+80;8]\nc [rsp0+88;8]\nc [rsp0+96;8]\nc [rsp0+104;8]\
\nc [rsp0+112;8]\nc [rsp0+120;8]\nc [rsp0+128;8]\nc [rsp0+136;8]\nc [rsp0+144;8]\nc [rsp0+152;8]\
\nc [rsp0+160;8]\nc [rsp0+168;8]\nc [rsp0+176;8]\nc [rsp0+184;8]\nc [rsp0+192;8]\nc [rsp0+200;8]\
\nc [rsp0+208;8]\nc [rsp0+216;8]\nc [rsp0+224;8]\nc [rsp0+232;8]\nc [rsp0+240;8]\nc [rsp0+248;8]\
\nc [rsp0+256;8]\nc [rsp0+264;8]\nc [rsp0+272;8]\nc [rsp0+280;8]\nc [rsp0+288;8]\nc [rsp0+296;8]\
\nc [rsp0+304;8]\nc [rsp0+312;8]\nc [rsp0+320;8]\nc [rsp0+328;8]\nc [rsp0+336;8]\nc [rsp0+344;8]\
\nc [rsp0+352;8]\nc [rsp0+360;8]\nc [rsp0+368;8]\nc [rsp0+376;8]\nc [rsp0+384;8]\nc [rsp0+392;8]\
\nc [rsp0+400;8]\nc [rsp0+408;8]\nc [rsp0+416;8]\nc [rsp0+424;8]\nc [rsp0+432;8]\nc [rsp0+440;8]\
\nc [rsp0+448;8]\nc [rsp0+456;8]\nc [rsp0+464;8]\nc [rsp0+472;8]\nc [rsp0+480;8]\nc [rsp0+488;8]\
\nc [rsp0+496;8]\nc [rsp0+504;8]" =>
        0x40_007d "" "" "" "[rsp0+4;8]=rdi0\nc [rsp0+16;8]\nc [rsp0+504;8]" [
            More::Cell(0, "[rsp0;8]\nc [rsp0+4;8]=rdi0"), More::Cell(1, "[rsp0+4;8]=rdi0\nc [rsp0+8;8]")]),
];
