// Every refusal of a file can be shown: its place lies in the line that `abo_line` answers for its line number. No code.
