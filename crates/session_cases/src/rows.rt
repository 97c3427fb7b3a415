// Texts and the answers to them, as tools/sessions.py prints them: the texts were written by hand, the answers are computed in Python.

// A session, its text and its answers.
pub(crate) struct Session {
    pub(crate) name: &'static str,
    pub(crate) text: &'static [u8],
    pub(crate) answers: &'static [u8],
}

// A text that is CRLFs as far as it goes: the most bytes that a text may have, how many it has, how long the answers are, and the last.
pub(crate) struct LineEnds {
    pub(crate) most: usize,
    pub(crate) length: usize,
    pub(crate) needed: usize,
    pub(crate) last: &'static [u8],
}

pub(crate) static SESSIONS: [Session; 38] = [
    // every call on a line of runs, whose codes may be any numbers
    Session {
        name: "runs",
        text: b"line,runs,0,0\r\n\
            add,A,down,0,18446744073709551615\r\n\
            add,B,down,18446744073709551615,0\r\n\
            add,C,judged,0,0\r\n\
            add,D,bypass,0,0\r\n\
            add,E,down,0,0\r\n\
            add,F,down,0,0\r\n\
            close\r\n\
            ask,1,6\r\n\
            ask,2,5\r\n\
            ask,5,5\r\n\
            ring\r\n\
            try\r\n\
            set,4,judged,6,2\r\n\
            set,4,down,6,4\r\n\
            ask,1,6\r\n\
            ring\r\n\
            back\r\n\
            ask,1,6\r\n\
            ring\r\n\
            set,1,up,2,3\r\n\
            ring\r\n\
            try\r\n\
            set,3,down,0,4\r\n\
            set,5,bypass,0,1\r\n\
            ask,1,5\r\n\
            keep\r\n\
            ask,1,5\r\n\
            ring\r\n",
        answers: b"ok,0\r\n\
            ok,1\r\n\
            ok,2\r\n\
            ok,3\r\n\
            ok,4\r\n\
            ok,5\r\n\
            ok,6\r\n\
            ok,7\r\n\
            ask,2,2,1\r\n\
            ask,1,1,2\r\n\
            ask,1,1,0\r\n\
            ring,4,4,1\r\n\
            ok,0\r\n\
            ok,3\r\n\
            ok,3\r\n\
            ask,3,2,1\r\n\
            ring,5,5,1\r\n\
            ok,2\r\n\
            ask,2,2,1\r\n\
            ring,4,4,1\r\n\
            ok,3\r\n\
            ring,2,2,1\r\n\
            ok,0\r\n\
            ok,3\r\n\
            ok,3\r\n\
            ask,2,0,1\r\n\
            ok,2\r\n\
            ask,2,0,1\r\n\
            ring,2,1,1\r\n",
    },
    // every call on a line of counts
    Session {
        name: "counts",
        text: b"line,counts,2,0\r\n\
            add,Weir Lane,down,3,2\r\n\
            add,Mill Race,judged,2,5\r\n\
            add,Quarry,judged,4,1\r\n\
            add,Wharf,bypass,6,6\r\n\
            add,East Gate,up,5,4\r\n\
            add,Hilltop,judged,1,3\r\n\
            close\r\n\
            ask,1,6\r\n\
            ask,2,5\r\n\
            ask,5,5\r\n\
            ring\r\n\
            try\r\n\
            set,4,judged,6,2\r\n\
            set,4,down,6,4\r\n\
            ask,1,6\r\n\
            ring\r\n\
            back\r\n\
            ask,1,6\r\n\
            ring\r\n\
            set,1,up,2,3\r\n\
            ring\r\n\
            try\r\n\
            set,3,down,0,4\r\n\
            set,5,bypass,0,1\r\n\
            ask,1,5\r\n\
            keep\r\n\
            ask,1,5\r\n\
            ring\r\n",
        answers: b"ok,0\r\n\
            ok,1\r\n\
            ok,2\r\n\
            ok,3\r\n\
            ok,4\r\n\
            ok,5\r\n\
            ok,6\r\n\
            ok,7\r\n\
            ask,1000,400,1\r\n\
            ask,25,150,2\r\n\
            ask,0,5,0\r\n\
            ring,1300,100,1\r\n\
            ok,0\r\n\
            ok,3\r\n\
            ok,3\r\n\
            ask,4320,1280,1\r\n\
            ring,5280,320,1\r\n\
            ok,2\r\n\
            ask,1000,400,1\r\n\
            ring,1300,100,1\r\n\
            ok,3\r\n\
            ring,200,1200,1\r\n\
            ok,0\r\n\
            ok,3\r\n\
            ok,3\r\n\
            ask,40,16,1\r\n\
            ok,2\r\n\
            ask,40,16,1\r\n\
            ring,160,64,1\r\n",
    },
    // every call on a line of residues
    Session {
        name: "residues",
        text: b"line,residues,3,97\r\n\
            add,Weir Lane,down,3,2\r\n\
            add,Mill Race,judged,2,5\r\n\
            add,Quarry,judged,4,1\r\n\
            add,Wharf,bypass,6,6\r\n\
            add,East Gate,up,5,4\r\n\
            add,Hilltop,judged,1,3\r\n\
            close\r\n\
            ask,1,6\r\n\
            ask,2,5\r\n\
            ask,5,5\r\n\
            ring\r\n\
            try\r\n\
            set,4,judged,6,2\r\n\
            set,4,down,6,4\r\n\
            ask,1,6\r\n\
            ring\r\n\
            back\r\n\
            ask,1,6\r\n\
            ring\r\n\
            set,1,up,2,3\r\n\
            ring\r\n\
            try\r\n\
            set,3,down,0,4\r\n\
            set,5,bypass,0,1\r\n\
            ask,1,5\r\n\
            keep\r\n\
            ask,1,5\r\n\
            ring\r\n",
        answers: b"ok,0\r\n\
            ok,1\r\n\
            ok,2\r\n\
            ok,3\r\n\
            ok,4\r\n\
            ok,5\r\n\
            ok,6\r\n\
            ok,7\r\n\
            ask,6,36,1\r\n\
            ask,0,78,2\r\n\
            ask,0,5,0\r\n\
            ring,24,18,1\r\n\
            ok,0\r\n\
            ok,3\r\n\
            ok,3\r\n\
            ask,24,47,1\r\n\
            ring,96,72,1\r\n\
            ok,2\r\n\
            ask,6,36,1\r\n\
            ring,24,18,1\r\n\
            ok,3\r\n\
            ring,0,42,1\r\n\
            ok,0\r\n\
            ok,3\r\n\
            ok,3\r\n\
            ask,0,56,1\r\n\
            ok,2\r\n\
            ask,0,56,1\r\n\
            ring,0,30,1\r\n",
    },
    // every call on a line of costs
    Session {
        name: "costs",
        text: b"line,costs,2,0\r\n\
            add,Weir Lane,down,3,2\r\n\
            add,Mill Race,judged,2,5\r\n\
            add,Quarry,judged,4,1\r\n\
            add,Wharf,bypass,6,6\r\n\
            add,East Gate,up,5,4\r\n\
            add,Hilltop,judged,1,3\r\n\
            close\r\n\
            ask,1,6\r\n\
            ask,2,5\r\n\
            ask,5,5\r\n\
            ring\r\n\
            try\r\n\
            set,4,judged,6,2\r\n\
            set,4,down,6,4\r\n\
            ask,1,6\r\n\
            ring\r\n\
            back\r\n\
            ask,1,6\r\n\
            ring\r\n\
            set,1,up,2,3\r\n\
            ring\r\n\
            try\r\n\
            set,3,down,0,4\r\n\
            set,5,bypass,0,1\r\n\
            ask,1,5\r\n\
            keep\r\n\
            ask,1,5\r\n\
            ring\r\n",
        answers: b"ok,0\r\n\
            ok,1\r\n\
            ok,2\r\n\
            ok,3\r\n\
            ok,4\r\n\
            ok,5\r\n\
            ok,6\r\n\
            ok,7\r\n\
            ask,14,11,1\r\n\
            ask,11,8,2\r\n\
            ask,1000000000001,5,0\r\n\
            ring,13,11,1\r\n\
            ok,0\r\n\
            ok,3\r\n\
            ok,3\r\n\
            ask,15,18,1\r\n\
            ring,15,18,1\r\n\
            ok,2\r\n\
            ask,14,11,1\r\n\
            ring,13,11,1\r\n\
            ok,3\r\n\
            ring,14,11,1\r\n\
            ok,0\r\n\
            ok,3\r\n\
            ok,3\r\n\
            ask,11,8,1\r\n\
            ok,2\r\n\
            ask,11,8,1\r\n\
            ring,12,9,1\r\n",
    },
    // it has no record, so no answer
    Session {
        name: "an empty text",
        text: b"",
        answers: b"",
    },
    // no verb is empty
    Session {
        name: "a record of one empty field",
        text: b"\r\n\
            line,runs,0,0\r\n\
            add,A,down,1,1\r\n\
            close\r\n\
            \r\n\
            ring\r\n\
            \r\n",
        answers: b"no,21,2,1,1\r\n\
            ok,0\r\n\
            ok,1\r\n\
            ok,0\r\n\
            no,21,2,5,41\r\n\
            ring,1,1,0\r\n\
            no,21,2,7,49\r\n",
    },
    // it is a record all the same
    Session {
        name: "the last record has no end",
        text: b"line,runs,0,0\r\n\
            add,A,down,1,1\r\n\
            close\r\n\
            ring",
        answers: b"ok,0\r\n\
            ok,1\r\n\
            ok,0\r\n\
            ring,1,1,0\r\n",
    },
    // the number is what there is of it
    Session {
        name: "the text ends inside a number",
        text: b"line,runs,0,0\r\n\
            add,A,down,1,1\r\n\
            close\r\n\
            ask,1,1\r\n\
            ask,1,12\r\n\
            ask,1,1",
        answers: b"ok,0\r\n\
            ok,1\r\n\
            ok,0\r\n\
            ask,1,1,0\r\n\
            no,6,3,5,48\r\n\
            ask,1,1,0\r\n",
    },
    // an empty field, told by the byte that it would begin at, one past the end
    Session {
        name: "the text ends behind a comma",
        text: b"line,runs,0,0\r\n\
            add,A,down,1,1\r\n\
            close\r\n\
            ask,1,",
        answers: b"ok,0\r\n\
            ok,1\r\n\
            ok,0\r\n\
            no,22,2,4,45\r\n",
    },
    // the first impossible byte is one past the end
    Session {
        name: "the text ends between quotes",
        text: b"line,runs,0,0\r\n\
            add,A,down,1,1\r\n\
            close\r\n\
            ask,1,\"1\r\n",
        answers: b"ok,0\r\n\
            ok,1\r\n\
            ok,0\r\n\
            no,20,1,4,49\r\n",
    },
    // the first impossible byte is one past the end
    Session {
        name: "the text ends behind a return",
        text: b"line,runs,0,0\r\n\
            add,A,down,1,1\r\n\
            close\r\n\
            ring\r",
        answers: b"ok,0\r\n\
            ok,1\r\n\
            ok,0\r\n\
            no,20,1,4,44\r\n",
    },
    // add and ring (24), a wrong number of columns before that (21), and that before a wrong column (22, 23)
    Session {
        name: "records before a line",
        text: b"add,A,down,1,1\r\n\
            ring\r\n\
            close\r\n\
            back\r\n\
            ask,1\r\n\
            close,\r\n\
            ask,01,x\r\n\
            add,A,off,x,1\r\n\
            line,runs,0,0\r\n\
            add,A,down,1,1\r\n\
            close\r\n\
            ask,1,1\r\n",
        answers: b"no,24,2,1,1\r\n\
            no,24,2,2,17\r\n\
            no,24,2,3,23\r\n\
            no,24,2,4,30\r\n\
            no,21,2,5,36\r\n\
            no,21,2,6,43\r\n\
            no,24,2,7,51\r\n\
            no,24,2,8,61\r\n\
            ok,0\r\n\
            ok,1\r\n\
            ok,0\r\n\
            ask,1,1,0\r\n",
    },
    // set, try, keep, back, ask, ring and a second line
    Session {
        name: "records before a close",
        text: b"line,runs,0,0\r\n\
            set,1,up,1,1\r\n\
            add,A,down,1,1\r\n\
            set,1,up,1,1\r\n\
            try\r\n\
            keep\r\n\
            back\r\n\
            ask,1,1\r\n\
            ring\r\n\
            line,runs,0,0\r\n\
            line,wrong,x,y\r\n\
            close\r\n\
            ring\r\n",
        answers: b"ok,0\r\n\
            no,24,2,2,16\r\n\
            ok,1\r\n\
            no,24,2,4,46\r\n\
            no,24,2,5,60\r\n\
            no,24,2,6,65\r\n\
            no,24,2,7,71\r\n\
            no,24,2,8,77\r\n\
            no,24,2,9,86\r\n\
            no,24,2,10,92\r\n\
            no,24,2,11,107\r\n\
            ok,0\r\n\
            ring,1,1,0\r\n",
    },
    // add, a second close and a second line, even where their columns are wrong
    Session {
        name: "records behind a close",
        text: b"line,runs,0,0\r\n\
            add,A,down,1,1\r\n\
            close\r\n\
            add,B,down,1,1\r\n\
            close\r\n\
            add,B,off,x,1\r\n\
            line,runs,0,0\r\n\
            line,counts,9,0\r\n\
            ask,1,1\r\n",
        answers: b"ok,0\r\n\
            ok,1\r\n\
            ok,0\r\n\
            no,24,2,4,39\r\n\
            no,24,2,5,55\r\n\
            no,24,2,6,62\r\n\
            no,24,2,7,77\r\n\
            no,24,2,8,92\r\n\
            ask,1,1,0\r\n",
    },
    // a refused line is none, so a later one is accepted
    Session {
        name: "lines out of range",
        text: b"line,runs,1,0\r\n\
            line,runs,0,1\r\n\
            line,counts,0,0\r\n\
            line,counts,5,0\r\n\
            line,counts,1,2\r\n\
            line,costs,0,0\r\n\
            line,costs,4,1\r\n\
            line,residues,5,7\r\n\
            line,residues,4,0\r\n\
            line,residues,4,1\r\n\
            line,residues,4,2147483648\r\n\
            add,A,up,1,1\r\n\
            line,residues,4,2147483647\r\n\
            add,A,judged,2147483646,2147483646\r\n\
            add,B,judged,2147483647,0\r\n\
            close\r\n\
            ask,1,1\r\n\
            ring\r\n",
        answers: b"no,1,2,1,1\r\n\
            no,1,2,2,16\r\n\
            no,1,2,3,31\r\n\
            no,1,2,4,48\r\n\
            no,1,2,5,65\r\n\
            no,1,2,6,82\r\n\
            no,1,2,7,98\r\n\
            no,1,2,8,114\r\n\
            no,1,2,9,133\r\n\
            no,1,2,10,152\r\n\
            no,1,2,11,171\r\n\
            no,24,2,12,199\r\n\
            ok,0\r\n\
            ok,1\r\n\
            no,5,3,15,277\r\n\
            ok,0\r\n\
            ask,0,2147483645,0\r\n\
            no,8,3,18,320\r\n",
    },
    // the first bad column of a record is told, before numbers out of range (1), a bad label (4) and a code (5)
    Session {
        name: "columns from the left",
        text: b"line,Runs,01,x\r\n\
            line,runs,01,x\r\n\
            line,counts,5,x\r\n\
            line,residues,2,2\r\n\
            add,123456789012345678901234 ,off,x,1\r\n\
            add,123456789012345678901234 ,up,x,y\r\n\
            add,123456789012345678901234 ,up,9,y\r\n\
            add,123456789012345678901234 ,up,9,9\r\n\
            add,123456789012345678901234,up,9,9\r\n\
            add,123456789012345678901234,judged,1,1\r\n\
            close\r\n\
            set,x,off,1,1\r\n\
            set,0,off,x,1\r\n\
            set,0,up,x,9\r\n\
            set,0,up,9,\"x\"\r\n\
            ask,x,y\r\n\
            ask,2,y\r\n\
            ring\r\n",
        answers: b"no,23,2,1,6\r\n\
            no,22,2,2,27\r\n\
            no,22,2,3,47\r\n\
            ok,0\r\n\
            no,23,2,5,99\r\n\
            no,22,2,6,141\r\n\
            no,22,2,7,181\r\n\
            no,4,3,8,184\r\n\
            no,5,3,9,222\r\n\
            ok,1\r\n\
            ok,0\r\n\
            no,22,2,12,311\r\n\
            no,23,2,13,328\r\n\
            no,22,2,14,346\r\n\
            no,22,2,15,362\r\n\
            no,22,2,16,371\r\n\
            no,22,2,17,382\r\n\
            no,8,3,18,385\r\n",
    },
    // an empty column is told by the byte behind it, and an empty label is a label
    Session {
        name: "empty fields",
        text: b"line,,,\r\n\
            line,runs,,\r\n\
            line,runs,0,0\r\n\
            add,,,,\r\n\
            add,,down,,1\r\n\
            add,\"\",down,1,\"\"\r\n\
            add,,down,1,1\r\n\
            ,\r\n\
            close\r\n\
            ask,1,\r\n\
            ask,,1\r\n\
            set,,down,1,1\r\n\
            ring\r\n",
        answers: b"no,23,2,1,6\r\n\
            no,22,2,2,20\r\n\
            ok,0\r\n\
            no,23,2,4,43\r\n\
            no,22,2,5,57\r\n\
            no,22,2,6,75\r\n\
            ok,1\r\n\
            no,21,2,8,94\r\n\
            ok,0\r\n\
            no,22,2,10,110\r\n\
            no,22,2,11,116\r\n\
            no,22,2,12,124\r\n\
            ring,1,1,0\r\n",
    },
    // the greatest number, one more, and what is no number
    Session {
        name: "numbers",
        text: b"line,runs,0,0\r\n\
            add,A,down,1,1\r\n\
            close\r\n\
            set,1,up,18446744073709551615,0\r\n\
            set,1,up,18446744073709551616,0\r\n\
            set,1,up,99999999999999999999,0\r\n\
            set,1,up,0,184467440737095516150\r\n\
            ask,01,1\r\n\
            ask,1,+1\r\n\
            ask, 1,1\r\n\
            ask,1 ,1\r\n\
            ask,1,-1\r\n\
            ask,1,00\r\n\
            ask,1,1.0\r\n\
            ask,1,18446744073709551615\r\n\
            ask,1,1\r\n",
        answers: b"ok,0\r\n\
            ok,1\r\n\
            ok,0\r\n\
            ok,0\r\n\
            no,22,2,5,81\r\n\
            no,22,2,6,114\r\n\
            no,22,2,7,149\r\n\
            no,22,2,8,176\r\n\
            no,22,2,9,188\r\n\
            no,22,2,10,196\r\n\
            no,22,2,11,206\r\n\
            no,22,2,12,218\r\n\
            no,22,2,13,228\r\n\
            no,22,2,14,238\r\n\
            no,6,3,15,243\r\n\
            ask,0,0,0\r\n",
    },
    // words and numbers of columns that no record has
    Session {
        name: "verbs",
        text: b"LINE,runs,0,0\r\n\
            \x20line,runs,0,0\r\n\
            line,runs,0\r\n\
            line,runs,0,0,0\r\n\
            line,runs,0,0\r\n\
            add,A,down,1,1\r\n\
            close\r\n\
            ring,\r\n\
            rin\r\n\
            ring \r\n\
            \"ring\"\"\"\r\n\
            ask,1,1,1\r\n\
            set,1,up,1\r\n\
            open\r\n\
            ring\r\n",
        answers: b"no,21,2,1,1\r\n\
            no,21,2,2,16\r\n\
            no,21,2,3,32\r\n\
            no,21,2,4,45\r\n\
            ok,0\r\n\
            ok,1\r\n\
            ok,0\r\n\
            no,21,2,8,100\r\n\
            no,21,2,9,107\r\n\
            no,21,2,10,112\r\n\
            no,21,2,11,119\r\n\
            no,21,2,12,129\r\n\
            no,21,2,13,140\r\n\
            no,21,2,14,152\r\n\
            ring,1,1,0\r\n",
    },
    // verbs, words, numbers and labels may be quoted
    Session {
        name: "quoted fields",
        text: b"\"line\",\"counts\",\"1\",\"0\"\r\n\
            \"add\",\"Mill, north\",\"judged\",\"9\",\"1\"\r\n\
            add,\"The \"\"old\"\" mill\",judged,\"2\",3\r\n\
            add,\"\"\"\"\"\"\"\"\"1234567890123456789\"\"\",up,1,1\r\n\
            add,\"\"\"\"\"\"\"\"\"1234567890123456789\"\" \",up,1,1\r\n\
            add,\"two\r\n\
            lines\",up,1,1\r\n\
            add,B,\"off\",1,1\r\n\
            add,B,up,\"01\",1\r\n\
            \"close\"\r\n\
            \"ask\",\"1\",\"3\"\r\n\
            \"ring\"\r\n",
        answers: b"ok,0\r\n\
            ok,1\r\n\
            ok,2\r\n\
            ok,3\r\n\
            no,4,3,5,145\r\n\
            no,4,3,6,190\r\n\
            no,23,2,7,221\r\n\
            no,22,2,8,241\r\n\
            ok,3\r\n\
            ask,32,18,1\r\n\
            ring,32,18,1\r\n",
    },
    // 24 bytes are a label and 25 are none; only what the grammar has between quotes can be outside of 20 to 7E
    Session {
        name: "labels",
        text: b"line,runs,0,0\r\n\
            add,ABCDEFGHIJKLMNOPQRSTUVWX,up,1,1\r\n\
            add,ABCDEFGHIJKLMNOPQRSTUVWXY,up,1,1\r\n\
            add, ~,up,1,1\r\n\
            add,\"\r\",up,1,1\r\n\
            add,\"\n\",up,1,1\r\n\
            add,\"ABCDEFGHIJKLMNOPQRSTUVWXYZABCDEFGHIJKLMNOPQRSTUVWXYZ\r\n\
            \",up,1,1\r\n\
            close\r\n",
        answers: b"ok,0\r\n\
            ok,1\r\n\
            no,4,3,3,53\r\n\
            ok,2\r\n\
            no,4,3,5,106\r\n\
            no,4,3,6,122\r\n\
            no,4,3,7,138\r\n\
            ok,1\r\n",
    },
    // a quote in a plain field, text behind a quote, a lone return, a lone line feed, bytes that no field has
    Session {
        name: "damaged records",
        text: b"line,runs,0,0\r\n\
            add,a\"b,up,1,1\r\n\
            add,\"a\"b,up,1,1\r\n\
            add,\"a\" ,up,1,1\r\n\
            add,A,up,1,1\rclose\r\n\
            add,A,up,1,1\nclose\r\n\
            add,A,up,1,1\r\r\n\
            add,\x80,up,1,1\r\n\
            add,\"\x7f\",up,1,1\r\n\
            a\x09b\r\n\
            \"\r\n\
            \x00\r\n\
            add,A,up,1,1\r\n\
            close\r\n",
        answers: b"ok,0\r\n\
            no,20,1,2,21\r\n\
            no,20,1,3,39\r\n\
            no,20,1,4,56\r\n\
            no,20,1,5,79\r\n\
            no,20,1,6,98\r\n\
            no,20,1,7,119\r\n\
            no,20,1,8,125\r\n\
            no,20,1,9,140\r\n\
            no,20,1,10,152\r\n\
            no,20,1,11,159\r\n\
            ok,1\r\n\
            ok,0\r\n",
    },
    // behind the next CRLF from the impossible byte on, also one between quotes, and records count on
    Session {
        name: "reading goes on",
        text: b"line,runs,0,0\r\n\
            add,\"a\r\n\
            b\x80c\r\n\
            add,B,up,1,1\r\n\
            a\"\r\n\
            \"a\"\"\r\n\
            b\"c\r\n\
            close\r\n\
            \"x\"y \"\r\n\
            ring\r\n\
            foo\r\n",
        answers: b"ok,0\r\n\
            no,20,1,2,25\r\n\
            ok,1\r\n\
            no,20,1,4,44\r\n\
            no,20,1,5,55\r\n\
            ok,0\r\n\
            no,20,1,7,68\r\n\
            ring,0,0,0\r\n\
            no,21,2,9,79\r\n",
    },
    // with no CRLF behind the impossible byte the text is over
    Session {
        name: "the rest is damaged",
        text: b"line,runs,0,0\r\n\
            add,A,down,1,1\r\n\
            close\r\n\
            ask,1\x801,1\nring",
        answers: b"ok,0\r\n\
            ok,1\r\n\
            ok,0\r\n\
            no,20,1,4,44\r\n",
    },
    // all that is left stands between quotes, so the text breaks off one past its end
    Session {
        name: "an open quote",
        text: b"line,runs,0,0\r\n\
            add,\"A,up,1,1\r\n\
            close\r\n",
        answers: b"ok,0\r\n\
            no,20,1,2,38\r\n",
    },
    // no station stands (7), and the line is filled further
    Session {
        name: "a close that is refused",
        text: b"line,runs,0,0\r\n\
            close\r\n\
            add,A,down,1,1\r\n\
            close\r\n\
            ring\r\n",
        answers: b"ok,0\r\n\
            no,7,3,2,16\r\n\
            ok,1\r\n\
            ok,0\r\n\
            ring,1,1,0\r\n",
    },
    // 0, one past the last, and windows from behind
    Session {
        name: "places outside the line",
        text: b"line,runs,0,0\r\n\
            add,A,down,1,1\r\n\
            add,B,up,1,1\r\n\
            add,C,down,1,1\r\n\
            close\r\n\
            ask,0,1\r\n\
            ask,0,0\r\n\
            ask,1,4\r\n\
            ask,3,2\r\n\
            ask,4,4\r\n\
            ask,3,3\r\n\
            set,0,up,1,1\r\n\
            set,4,up,1,1\r\n\
            ask,1,3\r\n",
        answers: b"ok,0\r\n\
            ok,1\r\n\
            ok,2\r\n\
            ok,3\r\n\
            ok,3\r\n\
            no,6,3,6,69\r\n\
            no,6,3,7,78\r\n\
            no,6,3,8,87\r\n\
            no,6,3,9,96\r\n\
            no,6,3,10,105\r\n\
            ask,1,1,0\r\n\
            no,6,3,12,123\r\n\
            no,6,3,13,137\r\n\
            ask,1,1,1\r\n",
    },
    // n is below k (8); windows have figures all the same
    Session {
        name: "a ring that is too short",
        text: b"line,counts,3,0\r\n\
            add,A,judged,1,1\r\n\
            add,B,judged,2,3\r\n\
            close\r\n\
            ring\r\n\
            ask,1,2\r\n\
            ask,2,2\r\n",
        answers: b"ok,0\r\n\
            ok,1\r\n\
            ok,2\r\n\
            ok,1\r\n\
            no,8,3,5,61\r\n\
            ask,0,10,0\r\n\
            ask,0,5,0\r\n",
    },
    // one inside another (9), none to end (10), ends of trials with no entry, a refused set that is no entry
    Session {
        name: "trials",
        text: b"line,runs,0,0\r\n\
            add,A,down,1,1\r\n\
            close\r\n\
            keep\r\n\
            back\r\n\
            try\r\n\
            try\r\n\
            set,2,up,1,1\r\n\
            keep\r\n\
            keep\r\n\
            try\r\n\
            back\r\n\
            back\r\n\
            try\r\n\
            set,1,up,1,1\r\n\
            try\r\n\
            back\r\n\
            ring\r\n",
        answers: b"ok,0\r\n\
            ok,1\r\n\
            ok,0\r\n\
            no,10,3,4,39\r\n\
            no,10,3,5,45\r\n\
            ok,0\r\n\
            no,9,3,7,56\r\n\
            no,6,3,8,61\r\n\
            ok,0\r\n\
            no,10,3,10,81\r\n\
            ok,0\r\n\
            ok,0\r\n\
            no,10,3,13,98\r\n\
            ok,0\r\n\
            ok,0\r\n\
            no,9,3,16,123\r\n\
            ok,1\r\n\
            ring,1,1,0\r\n",
    },
    // at 1000000000, sums and products; one more is no count (5)
    Session {
        name: "counts that stop",
        text: b"line,counts,1,0\r\n\
            add,A,judged,1,1000000001\r\n\
            add,A,up,0,1000000001\r\n\
            add,A,judged,40000,1000000000\r\n\
            add,B,judged,40000,0\r\n\
            add,C,judged,600000000,600000000\r\n\
            close\r\n\
            ask,1,1\r\n\
            ask,1,2\r\n\
            ask,3,3\r\n\
            ask,1,3\r\n\
            ring\r\n\
            set,3,bypass,1000000001,0\r\n\
            set,3,bypass,1000000000,0\r\n\
            ring\r\n",
        answers: b"ok,0\r\n\
            no,5,3,2,18\r\n\
            no,5,3,3,45\r\n\
            ok,1\r\n\
            ok,2\r\n\
            ok,3\r\n\
            ok,3\r\n\
            ask,1000000000,40000,0\r\n\
            ask,1000000000,1000000000,0\r\n\
            ask,600000000,600000000,0\r\n\
            ask,1000000000,1000000000,1\r\n\
            ring,1000000000,1000000000,1\r\n\
            no,5,3,13,204\r\n\
            ok,2\r\n\
            ring,1000000000,1000000000,1\r\n",
    },
    // none is a cost, one more is not (5); sums stop at 1000000000000 and never become none
    Session {
        name: "costs and none",
        text: b"line,costs,1,0\r\n\
            add,A,judged,0,1000000000001\r\n\
            add,B,down,1000000000002,0\r\n\
            add,B,judged,1000000000001,700000000000\r\n\
            add,C,judged,5,600000000000\r\n\
            close\r\n\
            ask,1,1\r\n\
            ask,2,2\r\n\
            ask,2,3\r\n\
            ask,1,3\r\n\
            set,3,judged,600000000000,1000000000002\r\n\
            set,3,judged,600000000000,1000000000000\r\n\
            ring\r\n",
        answers: b"ok,0\r\n\
            ok,1\r\n\
            no,5,3,3,47\r\n\
            ok,2\r\n\
            ok,3\r\n\
            ok,3\r\n\
            ask,1000000000001,0,0\r\n\
            ask,700000000000,1000000000001,0\r\n\
            ask,700000000005,1000000000001,1\r\n\
            ask,700000000005,1000000000001,1\r\n\
            no,5,3,11,188\r\n\
            ok,2\r\n\
            ring,1000000000000,1000000000001,1\r\n",
    },
    // a code of m or more is no residue (5), be it the down code or one that weighs nothing
    Session {
        name: "residues by 7",
        text: b"line,residues,2,7\r\n\
            add,A,judged,1,7\r\n\
            add,A,down,7,1\r\n\
            add,A,judged,6,6\r\n\
            add,B,judged,1,1\r\n\
            add,C,judged,3,5\r\n\
            close\r\n\
            set,1,up,6,7\r\n\
            ask,1,3\r\n\
            ring\r\n",
        answers: b"ok,0\r\n\
            no,5,3,2,20\r\n\
            no,5,3,3,38\r\n\
            ok,1\r\n\
            ok,2\r\n\
            ok,3\r\n\
            ok,3\r\n\
            no,5,3,8,115\r\n\
            ask,1,2,1\r\n\
            ring,3,0,1\r\n",
    },
    // the least modulus
    Session {
        name: "residues by 2",
        text: b"line,residues,1,2\r\n\
            add,A,judged,1,1\r\n\
            add,B,bypass,0,1\r\n\
            add,C,judged,2,0\r\n\
            close\r\n\
            ask,1,2\r\n\
            ring\r\n",
        answers: b"ok,0\r\n\
            ok,1\r\n\
            ok,2\r\n\
            no,5,3,4,56\r\n\
            ok,1\r\n\
            ask,1,1,0\r\n\
            ring,1,1,0\r\n",
    },
    // a bypass is up at the weight one, and ends a run
    Session {
        name: "stations passed by",
        text: b"line,costs,2,0\r\n\
            add,A,judged,0,4\r\n\
            add,B,bypass,9,9\r\n\
            add,C,judged,0,3\r\n\
            add,D,bypass,1000000000001,9\r\n\
            close\r\n\
            ask,1,4\r\n\
            ask,2,2\r\n\
            ring\r\n\
            set,4,judged,1,2\r\n\
            ask,1,4\r\n\
            ring\r\n",
        answers: b"ok,0\r\n\
            ok,1\r\n\
            ok,2\r\n\
            ok,3\r\n\
            ok,4\r\n\
            ok,3\r\n\
            ask,1000000000001,0,0\r\n\
            ask,1000000000001,0,0\r\n\
            ring,1000000000001,0,0\r\n\
            ok,2\r\n\
            ask,5,1,0\r\n\
            ring,5,1,0\r\n",
    },
    // the run across the seam has each station once
    Session {
        name: "a ring that is all down",
        text: b"line,runs,0,0\r\n\
            add,A,down,1,1\r\n\
            add,B,down,1,1\r\n\
            add,C,down,1,1\r\n\
            close\r\n\
            ring\r\n\
            ask,1,3\r\n\
            set,2,bypass,1,1\r\n\
            ring\r\n\
            ask,1,3\r\n",
        answers: b"ok,0\r\n\
            ok,1\r\n\
            ok,2\r\n\
            ok,3\r\n\
            ok,3\r\n\
            ring,3,3,1\r\n\
            ask,3,3,1\r\n\
            ok,2\r\n\
            ring,2,2,1\r\n\
            ask,1,1,1\r\n",
    },
    // k is 4 on a ring of four, over weights of 1, and then with one station more
    Session {
        name: "four in a row",
        text: b"line,counts,4,0\r\n\
            add,A,judged,1,1\r\n\
            add,B,judged,1,1\r\n\
            add,C,judged,1,1\r\n\
            add,D,judged,1,1\r\n\
            add,E,bypass,1,1\r\n\
            close\r\n\
            ask,1,4\r\n\
            ring\r\n\
            set,5,judged,1,1\r\n\
            ring\r\n",
        answers: b"ok,0\r\n\
            ok,1\r\n\
            ok,2\r\n\
            ok,3\r\n\
            ok,4\r\n\
            ok,5\r\n\
            ok,7\r\n\
            ask,1,15,0\r\n\
            ring,1,15,1\r\n\
            ok,3\r\n\
            ring,6,26,1\r\n",
    },
    // the most that stand; at one more 2 comes before 4 and 5
    Session {
        name: "32 stations",
        text: b"line,costs,3,0\r\n\
            add,1,judged,1,2\r\n\
            add,2,judged,2,3\r\n\
            add,3,down,3,4\r\n\
            add,4,judged,0,5\r\n\
            add,5,up,1,6\r\n\
            add,6,down,2,1\r\n\
            add,7,bypass,3,2\r\n\
            add,8,judged,0,3\r\n\
            add,9,down,1,4\r\n\
            add,10,up,2,5\r\n\
            add,11,judged,3,6\r\n\
            add,12,down,0,1\r\n\
            add,13,judged,1,2\r\n\
            add,14,bypass,2,3\r\n\
            add,15,down,3,4\r\n\
            add,16,judged,0,5\r\n\
            add,17,judged,1,6\r\n\
            add,18,down,2,1\r\n\
            add,19,judged,3,2\r\n\
            add,20,up,0,3\r\n\
            add,21,down,1,4\r\n\
            add,22,judged,2,5\r\n\
            add,23,judged,3,6\r\n\
            add,24,down,0,1\r\n\
            add,25,up,1,2\r\n\
            add,26,judged,2,3\r\n\
            add,27,down,3,4\r\n\
            add,28,bypass,0,5\r\n\
            add,29,judged,1,6\r\n\
            add,30,down,2,1\r\n\
            add,31,judged,3,2\r\n\
            add,32,judged,0,3\r\n\
            add,33,up,1,1\r\n\
            add,thirty-three is one too many,up,1000000000002,1\r\n\
            add,33,off,1,1\r\n\
            close\r\n\
            ask,1,32\r\n\
            ask,2,31\r\n\
            ask,17,32\r\n\
            ask,16,17\r\n\
            ask,1,33\r\n\
            ring\r\n\
            set,32,down,1,1\r\n\
            ring\r\n",
        answers: b"ok,0\r\n\
            ok,1\r\n\
            ok,2\r\n\
            ok,3\r\n\
            ok,4\r\n\
            ok,5\r\n\
            ok,6\r\n\
            ok,7\r\n\
            ok,8\r\n\
            ok,9\r\n\
            ok,10\r\n\
            ok,11\r\n\
            ok,12\r\n\
            ok,13\r\n\
            ok,14\r\n\
            ok,15\r\n\
            ok,16\r\n\
            ok,17\r\n\
            ok,18\r\n\
            ok,19\r\n\
            ok,20\r\n\
            ok,21\r\n\
            ok,22\r\n\
            ok,23\r\n\
            ok,24\r\n\
            ok,25\r\n\
            ok,26\r\n\
            ok,27\r\n\
            ok,28\r\n\
            ok,29\r\n\
            ok,30\r\n\
            ok,31\r\n\
            ok,32\r\n\
            no,2,3,34,580\r\n\
            no,2,3,35,595\r\n\
            no,23,2,36,655\r\n\
            ok,31\r\n\
            ask,51,49,0\r\n\
            ask,52,48,7\r\n\
            ask,28,25,0\r\n\
            ask,1000000000001,1,1\r\n\
            no,6,3,42,713\r\n\
            ring,51,49,0\r\n\
            ok,5\r\n\
            ring,50,51,0\r\n",
    },
    // the most entries of a trial; at one more 6 comes before 5 and that before 11, and back takes all 32 back
    Session {
        name: "32 sets",
        text: b"line,counts,2,0\r\n\
            add,A,judged,1,1\r\n\
            add,B,judged,2,3\r\n\
            close\r\n\
            ask,1,2\r\n\
            try\r\n\
            set,1,up,0,1\r\n\
            set,2,up,1,1\r\n\
            set,1,up,2,1\r\n\
            set,2,up,3,1\r\n\
            set,1,up,4,1\r\n\
            set,2,up,5,1\r\n\
            set,1,up,6,1\r\n\
            set,2,up,7,1\r\n\
            set,1,up,8,1\r\n\
            set,2,up,9,1\r\n\
            set,1,up,10,1\r\n\
            set,2,up,11,1\r\n\
            set,1,up,12,1\r\n\
            set,2,up,13,1\r\n\
            set,1,up,14,1\r\n\
            set,2,up,15,1\r\n\
            set,1,up,16,1\r\n\
            set,2,up,17,1\r\n\
            set,1,up,18,1\r\n\
            set,2,up,19,1\r\n\
            set,1,up,20,1\r\n\
            set,2,up,21,1\r\n\
            set,1,up,22,1\r\n\
            set,2,up,23,1\r\n\
            set,1,up,24,1\r\n\
            set,2,up,25,1\r\n\
            set,1,up,26,1\r\n\
            set,2,up,27,1\r\n\
            set,1,up,28,1\r\n\
            set,2,up,29,1\r\n\
            set,1,up,30,1\r\n\
            set,2,up,31,1\r\n\
            set,3,up,1000000001,1\r\n\
            set,2,up,1000000001,1\r\n\
            set,2,up,1,1\r\n\
            ask,1,2\r\n\
            back\r\n\
            ask,1,2\r\n\
            try\r\n\
            set,2,up,1,1\r\n\
            keep\r\n\
            ask,1,2\r\n",
        answers: b"ok,0\r\n\
            ok,1\r\n\
            ok,2\r\n\
            ok,1\r\n\
            ask,3,7,0\r\n\
            ok,0\r\n\
            ok,1\r\n\
            ok,1\r\n\
            ok,1\r\n\
            ok,1\r\n\
            ok,1\r\n\
            ok,1\r\n\
            ok,1\r\n\
            ok,1\r\n\
            ok,1\r\n\
            ok,1\r\n\
            ok,1\r\n\
            ok,1\r\n\
            ok,1\r\n\
            ok,1\r\n\
            ok,1\r\n\
            ok,1\r\n\
            ok,1\r\n\
            ok,1\r\n\
            ok,1\r\n\
            ok,1\r\n\
            ok,1\r\n\
            ok,1\r\n\
            ok,1\r\n\
            ok,1\r\n\
            ok,1\r\n\
            ok,1\r\n\
            ok,1\r\n\
            ok,1\r\n\
            ok,1\r\n\
            ok,1\r\n\
            ok,1\r\n\
            ok,1\r\n\
            no,6,3,39,545\r\n\
            no,5,3,40,568\r\n\
            no,11,3,41,591\r\n\
            ask,0,930,0\r\n\
            ok,32\r\n\
            ask,3,7,0\r\n\
            ok,0\r\n\
            ok,1\r\n\
            ok,1\r\n\
            ask,0,2,0\r\n",
    },
];

pub(crate) static LINE_ENDS: [LineEnds; 4] = [
    LineEnds {
        most: 65_536,
        length: 65_536,
        needed: 671_467,
        last: b"no,21,2,32768,65535\r\n",
    },
    LineEnds {
        most: 65_536,
        length: 65_537,
        needed: 13,
        last: b"no,25,1,1,1\r\n",
    },
    LineEnds {
        most: 4_096,
        length: 4_096,
        needed: 37_250,
        last: b"no,21,2,2048,4095\r\n",
    },
    LineEnds {
        most: 4_096,
        length: 4_097,
        needed: 13,
        last: b"no,25,1,1,1\r\n",
    },
];
